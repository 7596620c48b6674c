// Sets of rows as numbers, bit k for the row at k; and the ticks since a stamp, by wrapping subtraction.
ghost use Rattle.std.specs.Prelude.{◌≡◌, ◌<◌};
ghost use Rattle.rules.specs.Tick.{bit};
ghost use Rattle.state.specs.Meaning.{wrapped};
ghost use Rattle.state.specs.Sets.{known};

// The rows below n; from 16 on all sixteen. Sixteen bits shifted right fit, so `as`.
pub fn known_rows(n: usize) -> u16
    ensures { result ≡ known n }
{
    (65535u32 >> 16usize.saturating_sub(n)) as u16
}

// The row is in the set. That i is below 16 is asked here and where a row indexes an array: a type of positions would be built at each turn
// of a loop over sixteen, and taken apart at each array.
pub fn has(set: u32, i: usize) -> bool
    requires { i < 16 }
    ensures { result ≡ bit set i }
{
    (set >> i) % 2 == 1
}

// Clock minus stamp, modulo 2^32.
pub fn since(clock: u32, stamp: u32) -> u32
    ensures { result ≡ wrapped clock stamp }
{
    clock.wrapping_sub(stamp)
}
