// The bytes of a table's file, put at the front of an output.
ghost use Rattle.std.specs.Prelude.{◌≡◌, ◌+◌, ◌≤◌, ◌<◌, length, sum_by};
ghost use Rattle.std.proofs.lemmas.List.Edits.{sets};
ghost use Rattle.rules.specs.File.{row_bytes, file_bytes, put};
ghost use Rattle.table.specs.Memory.{header_bytes, numbers_bytes, row_size, rows_bytes, rows_of, table_row};
ghost use Rattle.table.specs.Answers.{written_of, output_after, row_in};

use crate::row::Row;
use crate::{Table, form};
use refusal::Refusal;

// The whole file, where it fits: 19 where it does not.
pub fn put_table(tb: Table, out: &mut [u8]) -> Result<usize, Refusal>
    requires { tb.n ≤ 16 }
    ensures value { result ≡ written_of (put (file_bytes (rows_of tb)) out.old) }
    ensures out_after { out.new ≡ output_after out.old (put (file_bytes (rows_of tb)) out.old) }
{
    let size = form::END_BYTES + row_sizes(&tb.m[..tb.n]);
    if out.len() < size {
        return Err(Refusal::SmallOutput);
    }
    let end = put_rows(tb, out);
    put_header(out, end, form::END_TAG, form::END_LENGTH);
    Ok(size)
}

// How long the fields of rows with these margins are.
fn row_sizes(margins: &[u16]) -> usize
    requires { length margins.now ≤ 16 }
    ensures { result ≡ sum_by row_size margins.now }
{
    margins.iter().map(|m| row_size(*m)).sum()
}

// How long the field of a row with this margin is.
fn row_size(m: u16) -> usize
    ensures { result ≡ row_size m }
{
    if m == 0 {
        form::ROW_BYTES
    } else {
        form::MARGIN_BYTES
    }
}

// The fields of the rows, one after the other; the place after the last.
fn put_rows(tb: Table, out: &mut [u8]) -> usize
    requires { (tb.n ≤ 16) × (length (rows_bytes (rows_of tb)) ≤ length out.old) }
    ensures value { result ≡ length (rows_bytes (rows_of tb)) }
    ensures out_after { out.new ≡ sets out.old 0 (rows_bytes (rows_of tb)) }
{
    let mut at: usize = 0;
    for i in 0..tb.n {
        let row = row_at(tb, i);
        put_row(row, out, at);
        at += row_size(row.m);
    }
    at
}

// The row at a position, which is asked to be below 16 as in faults.rt.
fn row_at(tb: Table, i: usize) -> Row
    requires { i < 16 }
    ensures { row_in result ≡ table_row tb i }
{
    Row {
        c: tb.c[i],
        d: tb.d[i],
        t: tb.t[i],
        rank: tb.rank[i],
        m: tb.m[i],
    }
}

// One row's field at a place: tag 01 where the margin is 0. An output and a place go together here as wire's functions take them.
fn put_row(row: Row, out: &mut [u8], at: usize)
    requires { at + row_size row.m ≤ length out.old }
    ensures { out.new ≡ sets out.old at (row_bytes (row_in row)) }
{
    if row.m == 0 {
        put_header(out, at, form::ROW_TAG, form::ROW_LENGTH);
        put_numbers(row, out, at + form::HEADER_BYTES);
    } else {
        put_header(out, at, form::MARGIN_TAG, form::MARGIN_LENGTH);
        put_numbers(row, out, at + form::HEADER_BYTES);
        wire::put_u16(out, at + form::ROW_BYTES, row.m);
    }
}

// The header of a field at a place; of the end field that is all.
fn put_header(out: &mut [u8], at: usize, tag: u8, bytes: u16)
    requires { at + 3 ≤ length out.old }
    ensures { out.new ≡ sets out.old at (header_bytes tag bytes) }
{
    wire::put_u8(out, at, tag);
    wire::put_u16(out, at + 1, bytes);
}

// The numbers that both forms of a row's field have, at a place.
fn put_numbers(row: Row, out: &mut [u8], at: usize)
    requires { at + 7 ≤ length out.old }
    ensures { out.new ≡ sets out.old at (numbers_bytes (row_in row)) }
{
    wire::put_u16(out, at, row.c);
    wire::put_u16(out, at + 2, row.d);
    wire::put_u16(out, at + 4, row.t);
    wire::put_u8(out, at + 6, row.rank);
}
