// The state in memory: what a tick never changes, what ticks and offers change, and both of a fresh table. docs/performance.md says why in this shape.
#![tactic(auto)]

mod fresh; // fresh.rt: a fresh dispatcher
mod sets; // sets.rt: sets of rows as numbers, and the age of a stamp

pub use fresh::{fresh_state, planned_rows};
pub use sets::{has, known_rows, since};
use table::Table;

// What a tick never changes: the table and its rows' promotion times. Apart from State, so that a tick moves only what it changes. Entries of rows that
// are not there are 0.
#[derive(Clone, Copy)]
pub struct Rows {
    pub table: Table,
    pub u: [u16; 16],
}

// The job that ran last: a hard row's, the first firm one, or nobody's.
#[derive(Clone, Copy)]
pub enum Last {
    Hard(usize),
    Firm,
    Nobody,
}

// What ticks and offers change. open, rested: sets of rows. The queue is the first count entries of budget, used and ticket: memory is fixed.
#[derive(Clone, Copy)]
pub struct State {
    pub clock: u32,
    pub next: u32,
    pub open: u16,
    pub rested: u16,
    pub last: Last,
    pub count: usize,
    pub run: [u16; 16],
    pub stamp: [u32; 16],
    pub budget: [u16; 8],
    pub used: [u16; 8],
    pub ticket: [u32; 8],
}
