// Lent byte slices: numbers in them, big-endian, read and put at a place; the check of a field; and the part of a file that a refusal shows.
#![tactic(auto)]

mod field; // field.rt: tag, length and value, and what is wrong with them
mod view; // view.rt: the part that a refusal shows

ghost use Rattle.std.specs.Prelude.{◌≡◌, [], ◌∷◌, ◌+◌, ◌≤◌, length};
ghost use Rattle.std.proofs.lemmas.List.Edits.{sets};
ghost use Rattle.rules.specs.Fields.{word, two};

pub use field::{BadField, check_field, tag_of};
pub use view::{Part, Place, shown};

// The number whose two bytes stand at a place. No trait for the widths, as block has one: these functions are big-endian, in a slice of any
// length, and docs/promises.md names them.
pub fn get_u16(s: &[u8], at: usize) -> u16
    requires { at + 2 ≤ length s.now }
    ensures { result ≡ word s.now at }
{
    u16::from_be_bytes([s[at], s[at + 1]])
}

// Puts a byte at a place; every other byte stays.
pub fn put_u8(s: &mut [u8], at: usize, x: u8)
    requires { at + 1 ≤ length s.old }
    ensures { s.new ≡ sets s.old at (x ∷ []) }
{
    s[at] = x;
}

// Puts the two bytes of a number at a place; every other byte stays.
pub fn put_u16(s: &mut [u8], at: usize, x: u16)
    requires { at + 2 ≤ length s.old }
    ensures { s.new ≡ sets s.old at (two x) }
{
    let [high, low] = x.to_be_bytes();
    s[at] = high;
    s[at + 1] = low;
}
