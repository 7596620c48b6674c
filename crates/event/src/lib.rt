// The event fields of document 01: one event read at a place of the lent events; and a thin reader that yields one at a time.
#![tactic(auto)]

mod reader;

ghost use Rattle.std.specs.Prelude.{◌≡◌, ◌+◌, ◌^◌, ◌<◌, ◌≤◌, length, drop};
ghost use Rattle.rules.specs.Events.{event_length, read_event};
ghost use Rattle.wire.specs.Field.{length_of};
ghost use Rattle.event.specs.Answers.{bad_at, event_of, offer_called, place_after, tick_called};

pub use reader::{EventReader, reader_at};
use refusal::Refusal;
use wire::Part;

const TICK_TAG: u8 = 0x21;

const OFFER_TAG: u8 = 0x22;

// What an event calls: a tick or an offer. Whoever answers takes the numbers one by one: dispatch and offer don't stand on this crate.
#[derive(Clone, Copy)]
pub enum Call {
    Tick { set: u16, done: bool, soft: bool },
    Offer { budget: u16, deadline: u16 },
}

// A call, and the place after its field.
#[derive(Clone, Copy)]
pub struct Event {
    pub call: Call,
    pub next: usize,
}

// Why an event is refused, and the part of the events that is shown.
#[derive(Clone, Copy)]
pub struct BadEvent {
    pub why: Refusal,
    pub part: Part,
}

// The event at a place, none where the events end: checks 1, 2, 3, 1, then 20, in document 01's order. A place beyond the end is the end.
// On slice and place, with the reader beside (docs/DECISIONS.md).
#[tactic(auto, unfolding(rules::specs::Events::read_event))]
pub fn read_event(s: &[u8], at: usize) -> Result<Option<Event>, BadEvent>
    ensures { result ≡ event_of at (read_event (drop at s.now)) }
{
    if s.len() <= at {
        Ok(None)
    } else {
        first_event(&s[at..], at)
    }
}

// The place after the event at a place; the place itself where there is none.
pub fn place_after(s: &[u8], at: usize) -> usize
    ensures { result ≡ place_after at (read_event (drop at s.now)) }
{
    match read_event(s, at) {
        Ok(Some(event)) => event.next,
        Ok(None) => at,
        Err(_) => at,
    }
}

// The event at the start of s, which is the place at of the events.
#[tactic(auto, unfolding(rules::specs::Events::read_event))]
fn first_event(s: &[u8], at: usize) -> Result<Option<Event>, BadEvent>
    requires { (1 ≤ length s.now) × (at + length s.now < 2 ^ 64) }
    ensures { result ≡ event_of at (read_event s.now) }
{
    let tag = wire::tag_of(s);
    let size = wire::check_field(s, value_length(tag), false).map_err(|bad| refused(
        bad.why, at, bad.size,
    ))?;
    let call = if tag == TICK_TAG {
        tick_call(s).map_err(|why| refused(why, at, size))?
    } else {
        offer_call(s)
    };
    Ok(Some(Event {
        call,
        next: at + size,
    }))
}

// How long the value of an event tag is.
fn value_length(tag: u8) -> Option<u16>
    ensures { length_of result ≡ event_length tag }
{
    match tag {
        TICK_TAG => Some(3),
        OFFER_TAG => Some(4),
        _ => None,
    }
}

// The call of a whole field with a tick's tag, or 20. Its flags are tested as board tests those that C gives: see there.
fn tick_call(s: &[u8]) -> Result<Call, Refusal>
    requires { 6 ≤ length s.now }
    ensures { result ≡ tick_called s.now }
{
    let flags = s[5];
    if 4 <= flags {
        return Err(Refusal::UnknownFlag);
    }
    Ok(Call::Tick {
        set: wire::get_u16(s, 3),
        done: flags % 2 == 1,
        soft: flags / 2 % 2 == 1,
    })
}

// The call of a whole field with an offer's tag.
fn offer_call(s: &[u8]) -> Call
    requires { 7 ≤ length s.now }
    ensures { result ≡ offer_called s.now }
{
    Call::Offer {
        budget: wire::get_u16(s, 3),
        deadline: wire::get_u16(s, 5),
    }
}

// The bytes of an event that are shown stand from its place on.
fn refused(why: Refusal, from: usize, size: usize) -> BadEvent
    ensures { result ≡ bad_at from why size }
{
    BadEvent {
        why,
        part: Part { from, size },
    }
}
