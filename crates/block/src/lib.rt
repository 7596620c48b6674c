// The 512-byte block: decoded, where it is the image of a state, and written. docs/block.md has the layout.
#![tactic(auto)]

mod places; // places.rt: where each field stands, by name
mod words; // words.rt: the bytes of a block; little-endian numbers, and arrays of them, read and put at a place
mod checks; // checks.rt: is it the image of a state
mod reading; // reading.rt: the rows and the state that stand in an image
mod writing; // writing.rt: the parts of an image, put in their places

ghost use Rattle.std.specs.Prelude.{◌≡◌};
ghost use Rattle.block.specs.Layout.{encoded_on, written_on};
ghost use Rattle.block.specs.Tests.{decoded_of};

pub use places::BLOCK_BYTES;
use state::{Rows, State};
use words::Block;

// What an image holds.
#[derive(Clone, Copy)]
pub struct Decoded {
    pub rows: Rows,
    pub state: State,
}

// Accepts exactly the images of states that meet document 01's conditions.
#[tactic(auto, unfolding(crate::specs::Tests::decoded_of))]
pub fn decode(b: &[u8]) -> Option<Decoded>
    ensures { result ≡ decoded_of b.now }
{
    let block: &Block = b.as_array()?;
    if !checks::image_good(block) {
        return None;
    }
    Some(Decoded {
        rows: reading::rows_at(block),
        state: reading::state_at(block),
    })
}

// Writes the whole image over a block of 512 bytes, and nothing where the length is another.
#[tactic(auto, unfolding(crate::specs::Layout::encoded_on))]
pub fn encode(rows: Rows, s: State, b: &mut [u8])
    ensures { b.new ≡ encoded_on b.old rows s }
{
    if let Some(block) = b.as_mut_array() {
        writing::put_image(rows, s, block);
    }
}

// Writes what a tick or an offer changes over the image of the state before, and nothing where the length is not 512.
#[tactic(auto, unfolding(crate::specs::Layout::written_on))]
pub fn write_state(s: State, b: &mut [u8])
    ensures { b.new ≡ written_on b.old s }
{
    if let Some(block) = b.as_mut_array() {
        writing::put_state(s, block);
    }
}
