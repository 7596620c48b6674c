// Reads a table from standard input and prints a line a row: the row, C, D, T, R, U and the rounds; or why it is refused.
#![tactic(auto)]

ghost use Rattle.std.specs.Prelude.{◌≤◌};

use console::{NoAnswer, fill};
use std::io;
use std::io::Print;
use table::PlannedTable;

// The file has its buffer here, since there is no heap: one byte more than a file may have.
fn main(rt: HostRuntime) -> io::Result<()> {
    let mut buffer = [0u8; 257];
    let n = fill(&mut rt.stdin(), &mut buffer).unwrap_or(0);
    if 256 < n {
        return rt.println(NoAnswer::TooLong);
    }
    show(&rt, &buffer[..n])
}

fn show(rt: &impl Print, s: &[u8]) -> io::Result<()> {
    match table::read_table(s) {
        Ok(planned) => print_rows(rt, planned),
        Err(refusal) => rt.println(NoAnswer::Refused {
            why: refusal.why,
            shown: refusal.part.of(s),
        }),
    }
}

// A line a row, counted from 1. By index: a row's numbers stand in six arrays of two structs, and five zips would be no plainer.
fn print_rows(rt: &impl Print, planned: PlannedTable) -> io::Result<()>
    requires { planned.table.n ≤ 16 }
{
    let (rows, plan) = (planned.table, planned.plan);
    for i in 0..rows.n {
        let (c, d, t) = (rows.c[i], rows.d[i], rows.t[i]);
        let (r, u, rounds) = (plan.r[i], plan.u[i], plan.rounds[i]);
        println!(rt; "{} {c} {d} {t} {r} {u} {rounds}", i + 1)?;
    }
    Ok(())
}
