// Reads table.bin and events.bin, each empty where it can't be opened or read, and prints a line an event: the dispatcher's answer, or why it is refused; after a tick's line one for each note.
#![tactic(auto)]

ghost use Rattle.std.specs.Prelude.{◌≡◌};
ghost use Rattle.std.specs.Counts.{IsPrefixLen};
ghost use Rattle.dispatch.specs.Steps.{tick_in};
ghost use Rattle.offer.specs.Steps.{offer_made};

use console::{NoAnswer, fill};
use event::Call;
use refusal::Refusal;
use state::{Rows, State};
use std::fs::File;
use std::io;
use std::io::Print;
use std::rt::Files;
use wire::{Part, Place};

// What is run: the table's file and the events' file.
#[derive(Clone, Copy)]
struct Input<'a> {
    table: &'a [u8],
    events: &'a [u8],
}

impl<'a> Input<'a> {
    // What is printed of a refusal: its number, and the part of one of the two files that it shows.
    fn refused(self, why: Refusal, place: Place) -> NoAnswer<'a> {
        NoAnswer::Refused {
            why,
            shown: wire::shown(self.table, self.events, place),
        }
    }
}

// Both files have their buffers here, since there is no heap: one byte more than a file may have.
fn main(rt: HostRuntime) -> io::Result<()> {
    let mut table = [0u8; 257];
    let mut events = [0u8; 60001];
    let n = load(&rt, "table.bin", &mut table);
    if 256 < n {
        return rt.println(NoAnswer::TooLong);
    }
    let m = load(&rt, "events.bin", &mut events);
    if 60000 < m {
        return rt.println(NoAnswer::TooLong);
    }
    let input = Input {
        table: &table[..n],
        events: &events[..m],
    };
    run_files(&rt, input)
}

// How many bytes of a file are put at the front of the buffer, as far as it goes; none where it can't be opened or read.
fn load<R: Files>(rt: &R, path: &str, buffer: &mut [u8]) -> usize
    ensures { IsPrefixLen result buffer.new }
{
    let Ok(mut file) = File::open(rt, path) else {
        return 0;
    };
    fill(&mut file, buffer).unwrap_or(0)
}

fn run_files(rt: &impl Print, input: Input) -> io::Result<()> {
    match table::read_table(input.table) {
        Ok(planned) => run_events(rt, input, state::planned_rows(planned.table, planned.plan)),
        Err(refusal) => rt.println(input.refused(refusal.why, Place::Table(refusal.part))),
    }
}

// The events in order, from the fresh state: to their end, or to the first that is no event. A loop by hand: each event says where the next one starts,
// and at one that is refused the reader stays, so that an iterator over it would not end.
fn run_events(rt: &impl Print, input: Input, rows: Rows) -> io::Result<()> {
    let mut state = state::fresh_state(rows.table.n);
    let mut at = 0;
    loop {
        match event::reader_at(input.events, at).next() {
            Ok(Some(event)) => {
                let field = Part {
                    from: at,
                    size: event.next - at,
                };
                called(rt, input, field, &rows, &mut state, event.call)?;
                at = event.next;
            }
            Ok(None) => {
                return Ok(());
            }
            Err(bad) => {
                return rt.println(input.refused(bad.why, Place::Events(bad.part)));
            }
        }
    }
}

// What an event calls; its field is shown where an offer is refused.
fn called(
    rt: &impl Print,
    input: Input,
    field: Part,
    rows: &Rows,
    state: &mut State,
    call: Call,
) -> io::Result<()> {
    match call {
        Call::Tick { set, done, soft } => tick(rt, rows, state, set, done, soft),
        Call::Offer { budget, deadline } => offer(rt, input, field, rows, state, budget, deadline),
    }
}

// A tick; the state after it, also where a line can't be printed.
fn tick(
    rt: &impl Print,
    rows: &Rows,
    state: &mut State,
    set: u16,
    done: bool,
    soft: bool,
) -> io::Result<()>
    ensures { state.new ≡ (tick_in rows.now state.old set done soft).state }
{
    rt.print(dispatch::tick(rows, state, set, done, soft))
}

// An offer, whose field is shown where it is refused; the state after it, also where its line can't be printed.
fn offer(
    rt: &impl Print,
    input: Input,
    field: Part,
    rows: &Rows,
    state: &mut State,
    budget: u16,
    deadline: u16,
) -> io::Result<()>
    ensures { state.new ≡ (offer_made rows.now state.old budget deadline).state }
{
    let offered = offer::offer(rows, state, budget, deadline);
    // let .. else, the form that document 01's list has here (docs/DECISIONS.md), so unwrap_err.
    let Ok(ticket) = offered else {
        return rt.println(input.refused(offered.unwrap_err(), Place::Events(field)));
    };
    println!(rt; "offer F{ticket}")
}
