// The check of a field, of tables and of events alike: a one-byte tag, a two-byte length, the value.
ghost use Rattle.std.specs.Prelude.{◌≡◌, length};
ghost use Rattle.rules.specs.Fields.{byte};
ghost use Rattle.wire.specs.Field.{field_check};

use crate::get_u16;
use refusal::Refusal;

// Why a field is refused, and how many bytes are shown from its start on.
#[derive(Clone, Copy)]
pub struct BadField {
    pub why: Refusal,
    pub size: usize,
}

// The tag at the start of s, 0 where there is none. No Option: no field has the tag 0, so both callers, which look a tag up, find nothing.
pub fn tag_of(s: &[u8]) -> u8
    ensures { result ≡ byte s.now 0 }
{
    s.first().copied().unwrap_or(0)
}

// The size of the field at the start of s, whose tag has a value of this length, if the tag is known; or the first that it fails of:
// fewer than 3 bytes (1), tag (2), length (3), a 17th row (5), value cut (1).
pub fn check_field(s: &[u8], length: Option<u16>, late: bool) -> Result<usize, BadField>
    ensures { result ≡ field_check length late s.now }
{
    if s.len() < 3 {
        return Err(to_end(Refusal::Cut, s));
    }
    let value = length.ok_or(header(Refusal::UnknownTag))?;
    if get_u16(s, 1) != value {
        return Err(header(Refusal::WrongLength));
    }
    if late {
        return Err(header(Refusal::Row17));
    }
    let size = 3 + usize::from(value);
    if s.len() < size {
        return Err(to_end(Refusal::Cut, s));
    }
    Ok(size)
}

// The three bytes of the header are shown.
fn header(why: Refusal) -> BadField
    ensures { result ≡ record { why = why; size = 3 } }
{
    BadField { why, size: 3 }
}

// All bytes are shown.
fn to_end(why: Refusal, s: &[u8]) -> BadField
    ensures { result ≡ record { why = why; size = length s.now } }
{
    BadField { why, size: s.len() }
}
