// The event reader: the lent bytes and its place in them.
ghost use Rattle.std.specs.Prelude.{◌≡◌, drop};
ghost use Rattle.rules.specs.Events.{read_event};
ghost use Rattle.event.specs.Answers.{event_of, place_after};

use crate::{BadEvent, Event};

#[derive(Clone, Copy)]
pub struct EventReader<'a> {
    pub bytes: &'a [u8],
    pub at: usize,
}

// A reader at a place.
pub fn reader_at<'a>(bytes: &'a [u8], at: usize) -> EventReader<'a>
    ensures { (result.bytes ≡ bytes.entry) × (result.at ≡ at) }
{
    EventReader { bytes, at }
}

impl<'a> EventReader<'a> {
    // The event at the reader's place.
    pub fn next(self) -> Result<Option<Event>, BadEvent>
        ensures { result ≡ event_of self.entry.at (read_event (drop self.entry.at self.entry.bytes.now)) }
    {
        crate::read_event(self.bytes, self.at)
    }

    // The reader moved behind the event at its place; where there is none, it stays.
    pub fn after(self) -> EventReader<'a>
        ensures { (result.bytes ≡ self.entry.bytes) × (result.at ≡ place_after self.entry.at (read_event (drop self.entry.at self.entry.bytes.now))) }
    {
        let at = crate::place_after(self.bytes, self.at);
        EventReader { at, ..self }
    }
}
