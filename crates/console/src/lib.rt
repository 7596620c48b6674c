// What the programs plan and run share: how a file is read to its end, and what is printed in place of an answer.
#![tactic(auto)]

ghost use Rattle.std.specs.Prelude.{◌<◌, IfOk, Some, length, take};
ghost use Rattle.std.specs.Fmt.{DisplaysOnOk};
ghost use Rattle.std.specs.Io.{ReadsAtMost};
ghost use Rattle.std.specs.Io.KnownBytes.{Consumes, IsAtEnd};
ghost use Rattle.console.specs.Text.{hex_text, no_answer_text};

use refusal::Refusal;
use std::io::Read;
use std::{fmt, io};

// How many bytes are put at the front of the buffer: reads go on until the input ends or the buffer is full.
// A loop by hand: `read_to_end` takes a Vec, and `read_exact` is an error where the input ends before the buffer.
pub fn fill<R: Read>(reader: &mut R, buffer: &mut [u8]) -> io::Result<usize>
    ensures bound { ReadsAtMost result buffer.new }
    ensures bytes { IfOk result (λ n. Consumes (R.remaining reader.old) (R.remaining reader.new) (take n buffer.new)) }
    ensures end { IfOk result (λ n. n < length buffer.new → IsAtEnd (R.remaining reader.new)) }
{
    let mut n = 0;
    while n < buffer.len() {
        let more = reader.read(&mut buffer[n..])?;
        if more == 0 {
            return Ok(n);
        }
        n += more;
    }
    Ok(n)
}

// What is printed in place of an answer: that a file is too long, or the number of a refusal with the bytes that it shows.
#[derive(Clone, Copy)]
pub enum NoAnswer<'a> {
    TooLong,
    Refused { why: Refusal, shown: &'a [u8] },
}

impl fmt::Display for NoAnswer<'_> {
    ghost output = { λ none. Some (no_answer_text none) };

    fn fmt<W: fmt::Write>(&self, f: &mut fmt::Formatter<W>) -> fmt::Result {
        match *self {
            NoAnswer::TooLong => f.write_str("too long"),
            NoAnswer::Refused { why, shown } => {
                write!(f, "refused {why}")?;
                write_bytes(f, shown)
            }
        }
    }
}

// Two digits of hex a byte, each after a space.
fn write_bytes<W: fmt::Write>(f: &mut fmt::Formatter<W>, bytes: &[u8]) -> fmt::Result
    ensures { DisplaysOnOk W.write_str_gives f.old result (Some (hex_text bytes.now)) f.new }
{
    for byte in bytes {
        write!(f, " {byte:02x}")?;
    }
    Ok(())
}
