// The checks 6 to 9 and 21 of rows.
ghost use Rattle.std.specs.Prelude.{◌≡◌, ◌||◌, [], ◌<◌, leb};
ghost use Rattle.rules.specs.Rows.{used};
ghost use Rattle.rules.specs.File.{fields_fault};
ghost use Rattle.table.specs.Memory.{table_row, above_of, fields_of};
ghost use Rattle.table.specs.Answers.{field_checked, row_checked, rows_pass};

use crate::row::FileRows;
use crate::{Refused, Table, form};
use refusal::Refusal;

// Rows in order, 6 to 9 in each, then 21. With `map_err(..)?` the proof would lack what the closure says of the row.
pub fn rows_check(rows: FileRows) -> Result<(), Refused>
    ensures { result ≡ rows_pass (fields_fault rows.table.n [] 0 (fields_of rows)) }
{
    for i in 0..rows.table.n {
        if let Err(why) = field_check(rows, i) {
            return Err(Refused { why, row: i });
        }
    }
    Ok(())
}

// 6 to 9 and 21 in the row at position i. That i < 16 stands in each contract here: a type of a table with an index would be no plainer,
// since each turn of the loop would build it, and each column be read through it.
fn field_check(rows: FileRows, i: usize) -> Result<(), Refusal>
    requires { i < 16 }
    ensures { result ≡ field_checked rows i }
{
    row_check(rows.table, i)?;
    if rows.tag[i] == form::MARGIN_TAG && rows.table.m[i] == 0 {
        return Err(Refusal::MZero);
    }
    Ok(())
}

// 6 to 9 in the row at position i.
fn row_check(tb: Table, i: usize) -> Result<(), Refusal>
    requires { i < 16 }
    ensures { result ≡ row_checked tb i }
{
    let c = tb.c[i];
    let d = tb.d[i];
    let t = tb.t[i];
    if c == 0 {
        return Err(Refusal::CZero);
    }
    if d < c {
        return Err(Refusal::COverD);
    }
    if t < d {
        return Err(Refusal::DOverT);
    }
    if bad_rank(tb, i) {
        return Err(Refusal::BadRank);
    }
    Ok(())
}

// The rank is n or above, or used by an earlier row.
fn bad_rank(tb: Table, i: usize) -> bool
    requires { i < 16 }
    ensures { result ≡ (leb tb.n (table_row tb i).rank || used (table_row tb i).rank (above_of tb i)) }
{
    let rank = tb.rank[i];
    tb.n <= usize::from(rank) || tb.rank[..i].contains(&rank)
}
