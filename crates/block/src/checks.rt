// Is a block the image of a state: each test looks at a whole array, with no early exit, and a fault is a number other than 0.
#![tactic(auto, using(crate::proofs::Ors::or_start, crate::proofs::Ors::or_more))]

ghost use Rattle.std.specs.Prelude.{◌≡◌, ◌%◌, ◌^◌, ◌≤◌, length, if◌then◌else◌};
ghost use Rattle.state.specs.Meaning.{entry};
ghost use Rattle.block.specs.Tests.{or_of, row_mark, firm_mark, most_run, hard_fault, rows_good, rank_mark, stamp_fault, stamps_good, firm_fault, firms_good, tickets_good, last_good, free_good, table_good, jobs_good, times_good, queue_good, rest_good, image_good};

use crate::places;
use crate::words::{Block, Number};
use state::{has, known_rows, since};

pub fn image_good(b: &Block) -> bool
    ensures { result ≡ image_good b.now }
{
    let n = usize::from(b[places::N_AT]);
    if 16 < n {
        return false;
    }
    let count = usize::from(b[places::COUNT_AT]);
    if 8 < count {
        return false;
    }
    let last = usize::from(b[places::LAST_AT]);
    let live = known_rows(n);
    let ranks = table_good(b, n);
    let rows = jobs_good(b, live, last);
    let stamps = times_good(b, live);
    let queue = queue_good(b, count, last);
    let rest = rest_good(b, count, last);
    ranks & rows & stamps & queue & rest
}

fn table_good(b: &Block, n: usize) -> bool
    requires { n ≤ 16 }
    ensures { result ≡ table_good b.now n }
{
    let ranks = places::RANK_AT;
    let past = places::BUDGET_AT;
    let once = all_marks(&b[ranks..ranks + n]) == u32::from(known_rows(n));
    let low = all_bits(&b[ranks..past]) < 32;
    let blank = all_bits(&b[ranks + n..past]) == 0;
    once & low & blank
}

fn jobs_good(b: &Block, live: u16, last: usize) -> bool
    ensures { result ≡ jobs_good b.now live last }
{
    let open = u16::get(b, places::OPEN_AT);
    rows_good(b, live, open, row_mark(last)) & (open <= live)
}

fn times_good(b: &Block, live: u16) -> bool
    ensures { result ≡ times_good b.now live }
{
    let rested = u16::get(b, places::RESTED_AT);
    stamps_good(b, rested | !live, u32::get(b, places::CLOCK_AT)) & (rested <= live)
}

fn queue_good(b: &Block, count: usize, last: usize) -> bool
    requires { count ≤ 8 }
    ensures { result ≡ queue_good b.now count last }
{
    let queued = known_rows(count);
    let first = since(u32::get(b, places::NEXT_AT), count as u32); // as: u32 has no From<usize>
    firms_good(b, queued, firm_mark(last)) & tickets_good(b, queued, first)
}

fn rest_good(b: &Block, count: usize, last: usize) -> bool
    ensures { result ≡ rest_good b.now count last }
{
    last_good(b, last, u16::get(b, places::OPEN_AT), count) & free_good(b)
}

// The last runner as a set of rows, and as a set of firm jobs, of which only the first can be it. Each cuts the other's bits off.
fn row_mark(last: usize) -> u16
    ensures { result ≡ row_mark last }
{
    (mark(last) % 65536) as u16
}

fn firm_mark(last: usize) -> u16
    ensures { result ≡ firm_mark last }
{
    (mark(last) / 65536 % 2) as u16
}

// The set of one position, modulo 32.
fn mark(position: usize) -> u32
    ensures { result ≡ 2 ^ (position % 32) }
{
    let k = position % 32;
    1u32 << k
}

// x if b holds, else y: an operand like any other, so that a fault is one expression with no branch to foretell wrongly.
fn pick<T: Copy>(b: bool, x: T, y: T) -> T
    ensures { result ≡ (if b then x else y) }
{
    if b { x } else { y }
}

// The bits that are set in some byte.
fn all_bits(bytes: &[u8]) -> u8
    ensures { result ≡ or_of (entry bytes.now) (length bytes.now) }
{
    let mut x = 0;
    for byte in bytes {
        x |= *byte;
    }
    x
}

// These ranks as a set.
fn all_marks(ranks: &[u8]) -> u32
    ensures { result ≡ or_of (rank_mark ranks.now) (length ranks.now) }
{
    let mut x = 0;
    for rank in ranks {
        x |= mark(usize::from(*rank));
    }
    x
}

// The ticks that a job may have run.
fn most_run(ran: bool, budget: u16) -> u16
    ensures { result ≡ most_run ran budget }
{
    budget.saturating_sub(pick(ran, 0, 1))
}

// Of one row. Its numbers are read one by one where this is called, once: a struct of them would say no more.
fn hard_fault(
    live: bool,
    open: bool,
    ran: bool,
    c: u16,
    d: u16,
    t: u16,
    u: u16,
    m: u16,
    run: u16,
) -> u16
    ensures { result ≡ hard_fault live «open» ran c d t u m run }
{
    let due = d.saturating_sub(m);
    c.saturating_sub(due)
        | d.saturating_sub(t)
        | u.saturating_sub(due.saturating_sub(c))
        | pick(live, 1u16.saturating_sub(c), t | m)
        | run.saturating_sub(pick(open, most_run(ran, c), 0))
}

fn rows_good(b: &Block, live: u16, open: u16, ran: u16) -> bool
    ensures { result ≡ rows_good b.now live «open» ran }
{
    let mut x = 0;
    for i in 0..16 {
        x |= hard_fault(
            has(u32::from(live), i),
            has(u32::from(open), i),
            has(u32::from(ran), i),
            u16::get(b, places::C_AT + 2 * i),
            u16::get(b, places::D_AT + 2 * i),
            u16::get(b, places::T_AT + 2 * i),
            u16::get(b, places::U_AT + 2 * i),
            u16::get(b, places::M_AT + 2 * i),
            u16::get(b, places::RUN_AT + 2 * i),
        );
    }
    x == 0
}

fn stamp_fault(quiet: bool, t: u16, clock: u32, stamp: u32) -> u32
    ensures { result ≡ stamp_fault quiet t clock stamp }
{
    let early = since(clock, stamp) < u32::from(t);
    pick(quiet, stamp, pick(early, 0, 1))
}

fn stamps_good(b: &Block, quiet: u16, clock: u32) -> bool
    ensures { result ≡ stamps_good b.now quiet clock }
{
    let mut x = 0;
    for i in 0..16 {
        x |= stamp_fault(
            has(u32::from(quiet), i),
            u16::get(b, places::T_AT + 2 * i),
            clock,
            u32::get(b, places::STAMP_AT + 4 * i),
        );
    }
    x == 0
}

fn firm_fault(queued: bool, ran: bool, budget: u16, used: u16) -> u16
    ensures { result ≡ firm_fault queued ran budget used }
{
    pick(queued, 1u16.saturating_sub(budget), budget) | used.saturating_sub(most_run(ran, budget))
}

fn firms_good(b: &Block, queued: u16, ran: u16) -> bool
    ensures { result ≡ firms_good b.now queued ran }
{
    let mut x = 0;
    for i in 0..8 {
        x |= firm_fault(
            has(u32::from(queued), i),
            has(u32::from(ran), i),
            u16::get(b, places::BUDGET_AT + 2 * i),
            u16::get(b, places::USED_AT + 2 * i),
        );
    }
    x == 0
}

fn tickets_good(b: &Block, queued: u16, first: u32) -> bool
    ensures { result ≡ tickets_good b.now queued first }
{
    let mut x = 0;
    for i in 0..8 {
        // as: u32 has no From<usize>, and i is below 8.
        let due = pick(has(u32::from(queued), i), first.wrapping_add(i as u32), 0);
        x |= u32::get(b, places::TICKET_AT + 4 * i) ^ due;
    }
    x == 0
}

// The last runner, if a job, is open and has run. By the number in the block, not by a Last: 18 and above, which name nobody, are refused.
fn last_good(b: &Block, last: usize, open: u16, count: usize) -> bool
    ensures { result ≡ last_good b.now last «open» count }
{
    if last < 16 {
        return has(u32::from(open), last) & (0 < u16::get(b, places::RUN_AT + 2 * last));
    }
    if last == 16 {
        return (0 < count) & (0 < u16::get(b, places::USED_AT));
    }
    last == 17
}

// The bytes kept free are 0.
fn free_good(b: &Block) -> bool
    ensures { result ≡ free_good b.now }
{
    let reserved = &b[places::RESERVED_AT..places::RESERVED_AT + places::RESERVED_BYTES];
    (all_bits(reserved) | b[places::FREE_AT]) == 0
}
