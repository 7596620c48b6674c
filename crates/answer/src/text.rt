// The answer in text, as the program run prints it.
ghost use Rattle.std.specs.Prelude.{◌≡◌, Some};
ghost use Rattle.answer.specs.Numbers.{row_number};
ghost use Rattle.std.specs.Fmt.{DisplaysOnOk};
ghost use Rattle.answer.specs.Text.{answer_text, band_text, bits_text, closing_text, how_text, notes_text, runner_text};

use crate::{Answer, Band, Closing, How, Notes, Runner};
use std::fmt;

impl fmt::Display for Band {
    ghost output = { λ band. Some (band_text band) };

    fn fmt<W: fmt::Write>(&self, f: &mut fmt::Formatter<W>) -> fmt::Result {
        f.write_str(match self {
            Band::Upper => "U",
            Band::Lower => "L",
        })
    }
}

impl fmt::Display for Runner {
    ghost output = { λ runner. Some (runner_text runner) };

    fn fmt<W: fmt::Write>(&self, f: &mut fmt::Formatter<W>) -> fmt::Result {
        match *self {
            Runner::Hard(k, band) => {
                let row = counted(k);
                write!(f, "{band}{row}")
            }
            Runner::Firm(ticket) => write!(f, "F{ticket}"),
            Runner::Soft => f.write_str("S"),
            Runner::Idle => f.write_str("I"),
        }
    }
}

impl fmt::Display for How {
    ghost output = { λ how. Some (how_text how) };

    fn fmt<W: fmt::Write>(&self, f: &mut fmt::Formatter<W>) -> fmt::Result {
        f.write_str(match self {
            How::Done => "done",
            How::Spent => "spent",
        })
    }
}

impl fmt::Display for Closing {
    ghost output = { λ closing. Some (closing_text closing) };

    fn fmt<W: fmt::Write>(&self, f: &mut fmt::Formatter<W>) -> fmt::Result {
        match *self {
            Closing::Nothing => f.write_str("-"),
            Closing::Hard(k, how) => {
                let row = counted(k);
                write!(f, "H{row} {how}")
            }
            Closing::Firm(ticket, how) => write!(f, "F{ticket} {how}"),
        }
    }
}

// The row at k, counted from 1. What is printed has no `requires`, so k is any usize here, and the number may be 2^64. As: u128 has no From<usize>.
fn counted(k: usize) -> u128
    ensures { result ≡ row_number k }
{
    k as u128 + 1
}

// A line for each note, in the order of their numbers.
impl fmt::Display for Notes {
    ghost output = { λ notes. Some (notes_text notes) };

    fn fmt<W: fmt::Write>(&self, f: &mut fmt::Formatter<W>) -> fmt::Result {
        write_bits(f, 12, self.unknown)?;
        if self.none_ran {
            f.write_str("note 13\n")?;
        }
        write_bits(f, 14, self.not_ready)
    }
}

// A note about release bits, where there are any: four digits of hex.
fn write_bits<W: fmt::Write>(f: &mut fmt::Formatter<W>, number: u8, bits: u16) -> fmt::Result
    ensures { DisplaysOnOk W.write_str_gives f.old result (Some (bits_text number bits)) f.new }
{
    if bits == 0 {
        return Ok(());
    }
    writeln!(f, "note {number} {bits:04x}")
}

// The lines of a tick: clock, runner and closing; then the notes.
impl fmt::Display for Answer {
    ghost output = { λ answer. Some (answer_text answer) };

    fn fmt<W: fmt::Write>(&self, f: &mut fmt::Formatter<W>) -> fmt::Result {
        let (clock, runner, closing) = (self.clock, self.runner, self.closing);
        writeln!(f, "{clock} {runner} {closing}")?;
        self.notes.fmt(f)
    }
}
