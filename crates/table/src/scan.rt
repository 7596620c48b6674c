// The scan of a table file: its fields one after the other, to the end field; the rows that it holds; and the row that a refusal shows.
ghost use Rattle.std.specs.Prelude.{◌≡◌, ◌+◌, ◌≤◌, ◌<◌, length, drop};
ghost use Rattle.rules.specs.File.{field_of, field_rows, row_of, scan, size_of, table_length};
ghost use Rattle.wire.specs.Field.{field_size, length_of};
ghost use Rattle.table.specs.Memory.{fields_of, table_of};
ghost use Rattle.table.specs.Walk.{RowFields, fields_in, tag_at};
ghost use Rattle.table.specs.Answers.{field_in, is_row_tag, next_field, row_refusal, scanned_of};

use crate::row::{FileRow, FileRows, Row};
use crate::{FileRefusal, Refused, Table, form};
use refusal::Refusal;
use wire::Part;

// The scan of a whole file, which comes to how many rows it has: checks 1 to 5. Where a field starts is known only from the one before
// it, so at and n go along by hand.
pub fn scan_fields(s: &[u8]) -> Result<usize, FileRefusal>
    ensures { result ≡ scanned_of (scan 16 0 s.now) }
{
    let mut at: usize = 0;
    let mut n: usize = 0;
    while let Some(size) = field_of(&s[at..], at, n == 16)? {
        at += size;
        n += 1;
    }
    let end = at + form::END_BYTES;
    if end < s.len() {
        return Err(shown(Refusal::AfterEnd, end, s.len() - end));
    }
    Ok(n)
}

// The field at the start of s, which stands at a place of the file: of a row, its size; of the end, nothing. full: sixteen rows came before it.
#[tactic(auto, unfolding(crate::specs::Answers::next_field))]
fn field_of(s: &[u8], at: usize, full: bool) -> Result<Option<usize>, FileRefusal>
    ensures { result ≡ next_field full at s.now }
{
    let tag = wire::tag_of(s);
    let row = is_row(tag);
    let size = wire::check_field(s, value_length(tag), row && full).map_err(|bad| shown(
        bad.why, at, bad.size,
    ))?;
    Ok(row.then_some(size))
}

// A refusal that is about no row, with the part that it shows.
fn shown(why: Refusal, from: usize, size: usize) -> FileRefusal
    ensures { result ≡ record { why = why; row = None; part = record { from = from; size = size } } }
{
    FileRefusal {
        why,
        row: None,
        part: Part { from, size },
    }
}

// The tag is a row's.
fn is_row(tag: u8) -> bool
    ensures { result ≡ is_row_tag tag }
{
    tag == form::ROW_TAG || tag == form::MARGIN_TAG
}

// How long the value of a table tag is.
fn value_length(tag: u8) -> Option<u16>
    ensures { length_of result ≡ table_length tag }
{
    match tag {
        form::ROW_TAG => Some(form::ROW_LENGTH),
        form::MARGIN_TAG => Some(form::MARGIN_LENGTH),
        form::END_TAG => Some(form::END_LENGTH),
        _ => None,
    }
}

// A file that is scanned: its first n fields are of rows, one after the other.
#[derive(Clone, Copy)]
pub struct ScannedFile<'a> {
    pub bytes: &'a [u8],
    pub n: usize,
    ghost few: { n ≤ 16 },
    ghost stand: { RowFields bytes.now n },
}

impl ScannedFile<'_> {
    // Its rows, put into the columns one by one: nothing collects into arrays.
    pub fn rows(self) -> FileRows
        ensures fields { fields_of result ≡ fields_in self.entry.bytes.now self.entry.n }
        ensures table { result.table ≡ table_of (field_rows (fields_in self.entry.bytes.now self.entry.n)) }
    {
        let mut tag = [0u8; 16];
        let mut c = [0u16; 16];
        let mut d = [0u16; 16];
        let mut t = [0u16; 16];
        let mut rank = [0u8; 16];
        let mut m = [0u16; 16];
        let mut at: usize = 0;
        for i in 0..self.n {
            let field = file_row_at(self.bytes, at);
            tag[i] = field.tag;
            c[i] = field.row.c;
            d[i] = field.row.d;
            t[i] = field.row.t;
            rank[i] = field.row.rank;
            m[i] = field.row.m;
            at += field_size(self.bytes, at);
        }
        let table = Table {
            n: self.n,
            c,
            d,
            t,
            rank,
            m,
        };
        FileRows { table, tag }
    }

    // The refusal of a row, which shows the row's whole field: each field starts where the one before it ends.
    pub fn refusal(self, x: Refused) -> FileRefusal
        requires { x.row < self.n }
        ensures { result ≡ row_refusal self.entry.bytes.now x }
    {
        let mut at: usize = 0;
        for _ in 0..x.row {
            at += field_size(self.bytes, at);
        }
        FileRefusal {
            why: x.why,
            // Counted from 1, and at most 16, so `as`: try_from would bring an error that never comes.
            row: Some(x.row as u8 + 1),
            part: Part {
                from: at,
                size: field_size(self.bytes, at),
            },
        }
    }
}

// The row whose field stands at a place. On slice and place, as wire's functions are.
fn file_row_at(s: &[u8], at: usize) -> FileRow
    requires { at + size_of (tag_at s.now at) ≤ length s.now }
    ensures { field_in result ≡ field_of (drop at s.now) }
{
    let row = Row {
        c: wire::get_u16(s, at + 3),
        d: wire::get_u16(s, at + 5),
        t: wire::get_u16(s, at + 7),
        rank: s[at + 9],
        m: margin_at(s, at),
    };
    FileRow { tag: s[at], row }
}

// The margin of that row.
fn margin_at(s: &[u8], at: usize) -> u16
    requires { at + size_of (tag_at s.now at) ≤ length s.now }
    ensures { result ≡ (row_of (drop at s.now)).M }
{
    if s[at] == form::MARGIN_TAG {
        wire::get_u16(s, at + form::ROW_BYTES)
    } else {
        0
    }
}

// The size of the field at a place, by its header.
fn field_size(s: &[u8], at: usize) -> usize
    requires { at + 3 ≤ length s.now }
    ensures { result ≡ field_size (drop at s.now) }
{
    3 + usize::from(wire::get_u16(s, at + 1))
}
