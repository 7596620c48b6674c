// A fresh dispatcher: its rows, from an accepted table and its plan, and its state.
ghost use Rattle.std.specs.Prelude.{◌≡◌};
ghost use Rattle.state.specs.Fresh.{fresh_in, planned_rows};

use crate::{Last, Rows, State, sets};
use table::{Plan, Table};

pub fn planned_rows(tb: Table, plan: Plan) -> Rows
    ensures { result ≡ planned_rows tb plan }
{
    // By itself: the check doesn't follow an array from a field straight into a literal.
    let u = plan.u;
    Rows { table: tb, u }
}

// The state of a fresh table of n rows, more than 16 counted as 16: every row rested, the clock at 0, nobody ran.
#[tactic(auto, unfolding(crate::specs::Fresh::fresh_in))]
pub fn fresh_state(n: usize) -> State
    ensures { result ≡ fresh_in n }
{
    State {
        clock: 0,
        next: 0,
        open: 0,
        rested: sets::known_rows(n),
        last: Last::Nobody,
        count: 0,
        run: [0; 16],
        stamp: [0; 16],
        budget: [0; 8],
        used: [0; 8],
        ticket: [0; 8],
    }
}
