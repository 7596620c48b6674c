// The steps of a tick: 1 close, 2 release, 3 choose, 4 run and advance.
ghost use Rattle.std.specs.Prelude.{◌≡◌};
ghost use Rattle.dispatch.specs.Steps.{advanced, chosen_in, closed_by, closes_in, closing_in, nobody_ran, popped, promoted_rows, ran_first, ran_in, ran_none, ran_row, released_by, shifted_in, shut_row};

use crate::sets;
use answer::{Band, Closing, How, Runner};
use state::{Last, Rows, State};

// What closes: the job that ran last, or nothing; a row of 16 or more counts as nobody. Arrays are taken out of their struct before a row
// indexes them, here and where they are changed below: a struct that is indexed by a variable can't stay in registers.
#[tactic(auto, unfolding(crate::specs::Steps::closing_after))]
pub fn closing_of(rows: &Rows, s: &State, done: bool) -> Closing
    ensures { result ≡ closing_in rows.now s.now done }
{
    match s.last {
        Last::Hard(row) if row < 16 => {
            let run = s.run;
            let c = rows.table.c;
            closes_as(done, run[row], c[row]).map_or(
                Closing::Nothing,
                |how| Closing::Hard(row, how),
            )
        }
        Last::Firm => closes_as(done, s.used[0], s.budget[0]).map_or(
            Closing::Nothing,
            |how| Closing::Firm(s.ticket[0], how),
        ),
        _ => Closing::Nothing,
    }
}

// No job ran last, or none of a row below 16.
pub fn nobody_ran(last: Last) -> bool
    ensures { result ≡ nobody_ran last }
{
    match last {
        Last::Hard(row) if row < 16 => false,
        Last::Firm => false,
        _ => true,
    }
}

// How a job closes, if it does; ticks: its whole C or budget.
fn closes_as(done: bool, run: u16, ticks: u16) -> Option<How>
    ensures { result ≡ closes_in done run ticks }
{
    if done {
        return Some(How::Done);
    }
    (ticks <= run).then_some(How::Spent)
}

// The state after that closing.
pub fn close(s: State, closing: Closing) -> State
    ensures { result ≡ closed_by s closing }
{
    match closing {
        Closing::Nothing => s,
        Closing::Hard(row, _) => shut_row(s, row),
        Closing::Firm(_, _) => pop(s),
    }
}

// The row without its job.
fn shut_row(s: State, i: usize) -> State
    ensures { result ≡ shut_row s i }
{
    if 16 <= i {
        return s;
    }
    let mut run = s.run;
    run[i] = 0;
    State {
        open: s.open & !(1 << i),
        run,
        ..s
    }
}

// The queue without its first job.
fn pop(s: State) -> State
    ensures { result ≡ popped s }
{
    State {
        count: s.count.saturating_sub(1),
        budget: shifted(s.budget, 0),
        used: shifted(s.used, 0),
        ticket: shifted(s.ticket, 0),
        ..s
    }
}

// An array of eight without its first element, and one more at its end.
fn shifted<T: Copy>(a: [T; 8], last: T) -> [T; 8]
    ensures { result ≡ shifted_in last a }
{
    [a[1], a[2], a[3], a[4], a[5], a[6], a[7], last]
}

// Each row of the set has a job, stamped now.
pub fn release(s: State, set: u16) -> State
    ensures { result ≡ released_by s set }
{
    State {
        open: s.open | set,
        rested: s.rested & !set,
        stamp: sets::stamped(s.stamp, set, s.clock),
        ..s
    }
}

// The rows whose job is open, and which are rested or U ticks old.
fn promoted_rows(rows: &Rows, s: &State) -> u16
    ensures { result ≡ promoted_rows rows.now s.now }
{
    s.open & (s.rested | sets::aged_rows(rows.u, s.stamp, s.clock))
}

// Who runs: the lowest promoted row, the first firm job, soft, the open row of the lowest rank, or nobody.
pub fn choose(rows: &Rows, s: &State, soft: bool) -> Runner
    ensures { result ≡ chosen_in rows.now s.now soft }
{
    if let Some(row) = sets::lowest(promoted_rows(rows, s)) {
        return Runner::Hard(row, Band::Upper);
    }
    if 0 < s.count {
        return Runner::Firm(s.ticket[0]);
    }
    if soft {
        return Runner::Soft;
    }
    match sets::lowest_rank(rows.table.rank, s.open) {
        Some(best) => Runner::Hard(best.row, Band::Lower),
        None => Runner::Idle,
    }
}

// The runner's job ran for one tick. Soft and Idle in one arm take some 27 instructions more a tick.
pub fn run(s: State, runner: Runner) -> State
    ensures { result ≡ ran_in s runner }
{
    match runner {
        Runner::Hard(i, _) => ran_row(s, i),
        Runner::Firm(_) => ran_first(s),
        Runner::Soft => ran_none(s),
        Runner::Idle => ran_none(s),
    }
}

fn ran_row(s: State, i: usize) -> State
    ensures { result ≡ ran_row s i }
{
    if 16 <= i {
        return s;
    }
    let mut run = s.run;
    run[i] = run[i].saturating_add(1);
    State {
        last: Last::Hard(i),
        run,
        ..s
    }
}

fn ran_first(s: State) -> State
    ensures { result ≡ ran_first s }
{
    let mut used = s.used;
    used[0] = used[0].saturating_add(1);
    State {
        last: Last::Firm,
        used,
        ..s
    }
}

fn ran_none(s: State) -> State
    ensures { result ≡ ran_none s }
{
    State {
        last: Last::Nobody,
        ..s
    }
}

// The clock advances by one, and the rows whose T has come are rested.
pub fn advance(rows: &Rows, s: State) -> State
    ensures { result ≡ advanced rows.now s }
{
    let clock = s.clock.wrapping_add(1);
    let rested = s.rested
        | sets::aged_rows(rows.table.t, s.stamp, clock) & state::known_rows(rows.table.n);
    State {
        clock,
        rested,
        stamp: sets::stamped(s.stamp, rested, 0),
        ..s
    }
}
