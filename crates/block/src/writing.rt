// The parts of an image, put one after the other in a block.
ghost use Rattle.std.specs.Prelude.{◌≡◌};
ghost use Rattle.block.specs.Places.{C_at, M_at, block_bytes, budget_at, clock_at, count_at, free_at, n_at, rank_at, reserved_at, run_at};
ghost use Rattle.block.specs.Words.{Put};
ghost use Rattle.block.specs.Layout.{head_bytes, last_number, marks_bytes, numbers_bytes, table_bytes, jobs_bytes, queue_bytes, reserved, image_of, state_on};

use crate::places;
use crate::words::{self, Block, Number};
use state::{Last, Rows, State};

pub fn put_image(rows: Rows, s: State, b: &mut Block)
    ensures { b.new ≡ image_of rows s }
{
    put_head(rows.table.n, s, b);
    put_table(rows, b);
    put_jobs(s, b);
    words::put_all(b, places::RANK_AT, &rows.table.rank);
    put_queue(s, b);
    words::put_all(b, places::M_AT, &rows.table.m);
    put_reserved(b);
}

// What a tick or an offer changes.
pub fn put_state(s: State, b: &mut Block)
    ensures { b.new ≡ state_on b.old s }
{
    put_marks(s, b);
    put_numbers(s, b);
    put_jobs(s, b);
    put_queue(s, b);
}

// n, count and the number of the last job are below 256 in every image; of other states what doesn't fit is cut off, by % before `as`.
fn put_head(n: usize, s: State, b: &mut Block)
    ensures { Put b.old b.new (head_bytes n s) n_at C_at }
{
    b[places::N_AT] = (n % 256) as u8;
    put_marks(s, b);
    b[places::FREE_AT] = 0;
    put_numbers(s, b);
}

// The number that stands for the job that ran last; no From, see last_named.
fn last_number(last: Last) -> usize
    ensures { result ≡ last_number last }
{
    match last {
        Last::Hard(row) => row,
        Last::Firm => 16,
        Last::Nobody => 17,
    }
}

fn put_marks(s: State, b: &mut Block)
    ensures { Put b.old b.new (marks_bytes s) count_at free_at }
{
    b[places::COUNT_AT] = (s.count % 256) as u8;
    b[places::LAST_AT] = (last_number(s.last) % 256) as u8;
}

fn put_numbers(s: State, b: &mut Block)
    ensures { Put b.old b.new (numbers_bytes s) clock_at C_at }
{
    s.clock.put(b, places::CLOCK_AT);
    s.next.put(b, places::NEXT_AT);
    s.open.put(b, places::OPEN_AT);
    s.rested.put(b, places::RESTED_AT);
}

fn put_table(rows: Rows, b: &mut Block)
    ensures { Put b.old b.new (table_bytes rows) C_at run_at }
{
    words::put_all(b, places::C_AT, &rows.table.c);
    words::put_all(b, places::D_AT, &rows.table.d);
    words::put_all(b, places::T_AT, &rows.table.t);
    words::put_all(b, places::U_AT, &rows.u);
}

fn put_jobs(s: State, b: &mut Block)
    ensures { Put b.old b.new (jobs_bytes s) run_at rank_at }
{
    words::put_all(b, places::RUN_AT, &s.run);
    words::put_all(b, places::STAMP_AT, &s.stamp);
}

fn put_queue(s: State, b: &mut Block)
    ensures { Put b.old b.new (queue_bytes s) budget_at M_at }
{
    words::put_all(b, places::BUDGET_AT, &s.budget);
    words::put_all(b, places::USED_AT, &s.used);
    words::put_all(b, places::TICKET_AT, &s.ticket);
}

fn put_reserved(b: &mut Block)
    ensures { Put b.old b.new reserved reserved_at block_bytes }
{
    b[places::RESERVED_AT..places::RESERVED_AT + places::RESERVED_BYTES].fill(0);
}
