// No code: specs/ is document 01 as definitions, proofs/ is what is proved of them.
#![tactic(auto)]
