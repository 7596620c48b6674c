// Rows in memory: one row, its field, and the rows of a file.
ghost use Rattle.std.specs.Prelude.{◌≤◌};

use crate::Table;

// A row: M is 0 where it has none.
#[derive(Clone, Copy)]
pub struct Row {
    pub c: u16,
    pub d: u16,
    pub t: u16,
    pub rank: u8,
    pub m: u16,
}

// A row's field: its tag, and the row.
#[derive(Clone, Copy)]
pub struct FileRow {
    pub tag: u8,
    pub row: Row,
}

// The rows of a file, at most sixteen, and the tags of their fields: one column more, as the table has columns.
#[derive(Clone, Copy)]
pub struct FileRows {
    pub table: Table,
    pub tag: [u8; 16],
    ghost few: { table.n ≤ 16 },
}
