// The part of a lent file that a refusal shows: of the table or of the events, no copy.
ghost use Rattle.std.specs.Prelude.{◌≡◌};
ghost use Rattle.wire.specs.View.{part_of, shown_of};

// So many bytes from a place on.
#[derive(Clone, Copy)]
pub struct Part {
    pub from: usize,
    pub size: usize,
}

impl Part {
    // That part of s, as far as it goes.
    pub fn of<'a>(self, s: &'a [u8]) -> &'a [u8]
        ensures { result.now ≡ part_of self s.now }
    {
        let rest = s.get(self.from..).unwrap_or(&[]);
        rest.get(..self.size).unwrap_or(rest)
    }
}

// Where the shown part stands.
#[derive(Clone, Copy)]
pub enum Place {
    Table(Part),
    Events(Part),
}

// The shown part, of whichever file holds the offending field.
pub fn shown<'a>(table: &'a [u8], events: &'a [u8], place: Place) -> &'a [u8]
    ensures { result.now ≡ shown_of table.now events.now place }
{
    match place {
        Place::Table(part) => part.of(table),
        Place::Events(part) => part.of(events),
    }
}
