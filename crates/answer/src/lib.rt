// The answer to a tick: who runs, what closed and what was noted; and who and what in numbers and in text. Rows are counted from 0 in the answer, from 1 in those.
#![tactic(auto)]

mod text; // text.rt: the answer as it is printed

ghost use Rattle.std.specs.Prelude.{◌≡◌, ◌<◌};
ghost use Rattle.answer.specs.Below.{ClosingBelow, RunnerBelow};
ghost use Rattle.answer.specs.Numbers.{band_number, closing_numbers, how_number, row_number, runner_numbers};

// The band in which a hard row runs: upper where its job is promoted.
#[derive(Clone, Copy)]
pub enum Band {
    Upper,
    Lower,
}

// Who runs: a hard row with its band, a firm ticket, soft, or idle.
#[derive(Clone, Copy)]
pub enum Runner {
    Hard(usize, Band),
    Firm(u32),
    Soft,
    Idle,
}

// How a job closed: the done flag was set, or all its ticks were run.
#[derive(Clone, Copy)]
pub enum How {
    Done,
    Spent,
}

// What closed: nothing, or the job of a hard row or of a firm ticket, and how.
#[derive(Clone, Copy)]
pub enum Closing {
    Nothing,
    Hard(usize, How),
    Firm(u32, How),
}

// What a tick took as clear. unknown: release bits of rows above n (12). none_ran: the done flag, where no job ran (13).
// not_ready: release bits of rows that are not rested, or whose job is still open after the closing (14).
#[derive(Clone, Copy)]
pub struct Notes {
    pub unknown: u16,
    pub none_ran: bool,
    pub not_ready: u16,
}

// The answer to a tick: the clock as the tick found it, who runs, what closed, and the notes.
#[derive(Clone, Copy)]
pub struct Answer {
    pub clock: u32,
    pub runner: Runner,
    pub closing: Closing,
    pub notes: Notes,
}

// A runner in numbers, as the C interface gives it: a number for each kind and band, and 0 where a number says nothing.
#[derive(Clone, Copy, Default)]
pub struct RunnerNumbers {
    pub kind: u8,
    pub row: u8,
    pub band: u8,
    pub ticket: u32,
}

// A closing in numbers, as the C interface gives it: a number for each kind and how, and 0 where a number says nothing.
#[derive(Clone, Copy, Default)]
pub struct ClosingNumbers {
    pub kind: u8,
    pub row: u8,
    pub how: u8,
    pub ticket: u32,
}

// The row at k, counted from 1. No From, which could not ask that the row is below 16.
pub fn row_number(k: usize) -> u8
    requires { k < 16 }
    ensures { result ≡ row_number k }
{
    k as u8 + 1
}

// 1 upper, 2 lower.
impl From<Band> for u8 {
    ghost from_gives = { λ band n. n ≡ band_number band };

    fn from(band: Band) -> u8 {
        match band {
            Band::Upper => 1,
            Band::Lower => 2,
        }
    }
}

// 1 done, 2 spent.
impl From<How> for u8 {
    ghost from_gives = { λ how n. n ≡ how_number how };

    fn from(how: How) -> u8 {
        match how {
            How::Done => 1,
            How::Spent => 2,
        }
    }
}

// Who runs: 1 hard, with its row and band, 2 firm, with its ticket, 3 soft, 4 idle.
pub fn runner_numbers(runner: Runner) -> RunnerNumbers
    requires { RunnerBelow runner }
    ensures { result ≡ runner_numbers runner }
{
    match runner {
        Runner::Hard(k, band) => RunnerNumbers {
            kind: 1,
            row: row_number(k),
            band: u8::from(band),
            ..RunnerNumbers::default()
        },
        Runner::Firm(ticket) => RunnerNumbers {
            kind: 2,
            ticket,
            ..RunnerNumbers::default()
        },
        Runner::Soft => RunnerNumbers {
            kind: 3,
            ..RunnerNumbers::default()
        },
        Runner::Idle => RunnerNumbers {
            kind: 4,
            ..RunnerNumbers::default()
        },
    }
}

// What closed: 0 nothing, 1 hard, with its row, 2 firm, with its ticket; and how.
pub fn closing_numbers(closing: Closing) -> ClosingNumbers
    requires { ClosingBelow closing }
    ensures { result ≡ closing_numbers closing }
{
    match closing {
        Closing::Nothing => ClosingNumbers::default(),
        Closing::Hard(k, how) => ClosingNumbers {
            kind: 1,
            row: row_number(k),
            how: u8::from(how),
            ..ClosingNumbers::default()
        },
        Closing::Firm(ticket, how) => ClosingNumbers {
            kind: 2,
            how: u8::from(how),
            ticket,
            ..ClosingNumbers::default()
        },
    }
}
