// The response bound of a row, and from it the plan of a table.
ghost use Rattle.std.specs.Prelude.{◌≡◌, [], ◌*◌, ◌≤◌, ◌<◌};
ghost use Rattle.rules.specs.Bound.{response, plan_rows};
ghost use Rattle.table.specs.Memory.{table_row, rows_of, above_of, Sound};
ghost use Rattle.table.specs.Answers.{demand_of, bound_of, planning_of, row_bound};

use crate::{Plan, Refused, Table};
use refusal::Refusal;

// What the iteration of a row comes to: it repeats at r after so many rounds.
#[derive(Clone, Copy)]
pub struct Bound {
    pub r: u16,
    pub rounds: u16,
}

// A table of at most sixteen rows, each with 1 ≤ C ≤ D ≤ T.
#[derive(Clone, Copy)]
pub struct SoundTable {
    pub table: Table,
    ghost few: { table.n ≤ 16 },
    ghost sound: { Sound table table.n },
}

impl SoundTable {
    // Its plan: rows in order, 10 and then 22 in each; put into the columns one by one, since nothing collects into arrays.
    pub fn plan(&self) -> Result<Plan, Refused>
        ensures { result ≡ planning_of (plan_rows [] 0 (rows_of self.now.table)) }
    {
        let tb = self.table;
        let mut r = [0u16; 16];
        let mut u = [0u16; 16];
        let mut rounds = [0u16; 16];
        for i in 0..tb.n {
            let bound = self.row_bound(i)?;
            r[i] = bound.r;
            u[i] = tb.d[i] - bound.r - tb.m[i];
            rounds[i] = bound.rounds;
        }
        Ok(Plan { r, u, rounds })
    }

    // The bound of row i, which leaves its margin; or 10, then 22.
    fn row_bound(&self, i: usize) -> Result<Bound, Refused>
        requires { i < self.now.table.n }
        ensures { result ≡ row_bound self.now.table i }
    {
        let tb = self.table;
        let bound = self.bound_of_row(i).ok_or(Refused {
            why: Refusal::PassesD,
            row: i,
        })?;
        if u32::from(tb.d[i]) < u32::from(bound.r) + u32::from(tb.m[i]) {
            return Err(Refused {
                why: Refusal::RMOverD,
                row: i,
            });
        }
        Ok(bound)
    }

    // The iteration of row i, from w = C, until its value repeats; nothing where it passes D. A round is an evaluation of f. A loop by hand: it goes from value to value, and yields the bound by break.
    fn bound_of_row(&self, i: usize) -> Option<Bound>
        requires { i < self.now.table.n }
        ensures { result ≡ bound_of (response (above_of self.now.table i) (table_row self.now.table i)) }
    {
        let d = u64::from(self.table.d[i]);
        let c = u64::from(self.table.c[i]);
        let mut w = c;
        let mut rounds: u16 = 0;
        loop {
            if d < w {
                break None;
            }
            rounds += 1;
            let v = c + self.demand(i, w);
            if v == w {
                // w ≤ D fits, so `as`: try_from would bring an error that never comes.
                let r = w as u16;
                break Some(Bound { r, rounds });
            }
            w = v;
        }
    }

    // What the rows above row i ask at most of w ticks: the sum of ceil(w / T) * C.
    fn demand(&self, i: usize, w: u64) -> u64
        requires { (i ≤ self.now.table.n) × (w < 65536) }
        ensures { (result ≡ demand_of (above_of self.now.table i) w) × (result ≤ i * (65535 * 65535)) }
    {
        let mut sum: u64 = 0;
        for j in 0..i {
            let period = u64::from(self.table.t[j]);
            sum = (w + (period - 1)) / period * u64::from(self.table.c[j]) + sum;
        }
        sum
    }
}
