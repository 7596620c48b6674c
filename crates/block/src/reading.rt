// The rows and the state that stand in a block, each field at its place.
ghost use Rattle.std.specs.Prelude.{◌≡◌};
ghost use Rattle.block.specs.Layout.{last_named, rows_at, state_at};

use crate::places;
use crate::words::{self, Block, Number};
use state::{Last, Rows, State};
use table::Table;

pub fn rows_at(b: &Block) -> Rows
    ensures { result ≡ rows_at b.now }
{
    let table = Table {
        n: usize::from(b[places::N_AT]),
        c: words::get_all(b, places::C_AT),
        d: words::get_all(b, places::D_AT),
        t: words::get_all(b, places::T_AT),
        rank: words::get_all(b, places::RANK_AT),
        m: words::get_all(b, places::M_AT),
    };
    Rows {
        table,
        u: words::get_all(b, places::U_AT),
    }
}

// The job that ran last, of the number that stands for it in a block: 0 to 15 a row, 16 the first firm job, 17 nobody. No From: it would have
// to be state's, and the number is the block's.
fn last_named(number: u8) -> Last
    ensures { result ≡ last_named number }
{
    match number {
        0..=15 => Last::Hard(usize::from(number)),
        16 => Last::Firm,
        _ => Last::Nobody,
    }
}

pub fn state_at(b: &Block) -> State
    ensures { result ≡ state_at b.now }
{
    State {
        clock: u32::get(b, places::CLOCK_AT),
        next: u32::get(b, places::NEXT_AT),
        open: u16::get(b, places::OPEN_AT),
        rested: u16::get(b, places::RESTED_AT),
        last: last_named(b[places::LAST_AT]),
        count: usize::from(b[places::COUNT_AT]),
        run: words::get_all(b, places::RUN_AT),
        stamp: words::get_all(b, places::STAMP_AT),
        budget: words::get_all(b, places::BUDGET_AT),
        used: words::get_all(b, places::USED_AT),
        ticket: words::get_all(b, places::TICKET_AT),
    }
}
