// The dispatcher in memory: the tick.
#![tactic(auto)]

mod sets; // sets.rt: sets of rows, and the loops over sixteen rows
mod steps; // steps.rt: close, release, choose, run

ghost use Rattle.std.specs.Prelude.{◌≡◌};
ghost use Rattle.dispatch.specs.Steps.{tick_in};

use answer::{Answer, Notes};
use state::{Rows, State};

// One tick: close, release, choose, run. The release bits of rows above n, and of rows that are not ready once the last job is closed, are noted and not released.
// The steps take a state and give the next: docs/performance.md says why.
#[tactic(auto, unfolding(crate::specs::Steps::tick_in, crate::specs::Steps::stepped_in))]
pub fn tick(rows: &Rows, s: &mut State, set: u16, done: bool, soft: bool) -> Answer
    ensures value { result ≡ (tick_in rows.now s.old set done soft).answer }
    ensures state_after { s.new ≡ (tick_in rows.now s.old set done soft).state }
{
    let closing = steps::closing_of(rows, s, done);
    let closed = steps::close(*s, closing);
    let known = state::known_rows(rows.table.n);
    let asked = set & known;
    let unready = closed.open | !closed.rested;
    let notes = Notes {
        unknown: set & !known,
        none_ran: done & steps::nobody_ran(s.last),
        not_ready: asked & unready,
    };
    let released = steps::release(closed, asked & !unready);
    let runner = steps::choose(rows, &released, soft);
    let ran = steps::run(released, runner);
    *s = steps::advance(rows, ran);
    Answer {
        clock: closed.clock,
        runner,
        closing,
        notes,
    }
}
