// Sets of rows as numbers, bit k for the row at k, and the loops over sixteen rows.
ghost use Rattle.std.specs.Prelude.{◌≡◌, None};
ghost use Rattle.dispatch.specs.Loops.{aged_at, better, fold_rows, low_at, lowest_in, marked, rows_that, upto};

// The lowest row of the set.
pub fn lowest(set: u16) -> Option<usize>
    ensures { result ≡ lowest_in set }
{
    let row = set.trailing_zeros() as usize; // as: usize has no From<u32>
    (row < 16).then_some(row)
}

// The stamps of the rows of a set put to a value. Each stamp is written, changed or not: a loop without a branch becomes vector code.
pub fn stamped(mut stamp: [u32; 16], set: u16, v: u32) -> [u32; 16]
    ensures { result ≡ upto (marked set v) 16 stamp }
{
    let rows = u32::from(set);
    for (i, x) in stamp.iter_mut().enumerate() {
        *x = if state::has(rows, i) { v } else { *x };
    }
    stamp
}

// The rows whose stamp is at least so many ticks ago. No branch here either.
#[tactic(auto, using(crate::proofs::Loops::that_next, crate::proofs::Loops::that_none))]
pub fn aged_rows(ticks: [u16; 16], stamp: [u32; 16], clock: u32) -> u16
    ensures { result ≡ rows_that (aged_at ticks stamp clock) 16 }
{
    let mut rows: u16 = 0;
    for i in 0..16 {
        let aged = u32::from(ticks[i]) <= state::since(clock, stamp[i]);
        rows |= u16::from(aged) << i;
    }
    rows
}

// A row and its rank.
#[derive(Clone, Copy)]
pub struct Best {
    pub rank: u8,
    pub row: usize,
}

fn better_of(rank: u8, row: usize, best: Option<Best>) -> Option<Best>
    ensures { result ≡ better rank row best }
{
    match best {
        Some(so_far) if so_far.rank <= rank => best,
        _ => Some(Best { rank, row }),
    }
}

// The row of the lowest rank in the set. The loop goes from row to row of the set: filter and min_by_key over all sixteen, counted in Rust over random sets, took two fifths more
// instructions and mispredicted ten times as many branches.
#[tactic(auto, using(crate::proofs::Lowest::left_lt, crate::proofs::Lowest::left_turn, crate::proofs::Lowest::low_none, crate::proofs::Lowest::no_row))]
pub fn lowest_rank(rank: [u8; 16], set: u16) -> Option<Best>
    ensures { result ≡ fold_rows (low_at rank set) 0 16 None }
{
    let mut best = None;
    let mut left = set;
    while let Some(row) = lowest(left) {
        best = better_of(rank[row], row, best);
        left &= !(1 << row);
    }
    best
}
