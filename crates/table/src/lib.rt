// The hard table of document 01: read from its file, checked, planned, and written to a file again.
#![tactic(auto)]

mod bounds; // bounds.rt: the response bound of a row, the plan of a table
mod faults; // faults.rt: the checks 6 to 9 and 21
mod form; // form.rt: what a file looks like
mod row; // row.rt: rows in memory
mod scan; // scan.rt: a file read
mod writing; // writing.rt: a file written

ghost use Rattle.std.specs.Prelude.{◌≡◌};
ghost use Rattle.rules.specs.File.{plan_fields, write};
ghost use Rattle.table.specs.Memory.{fields_of, rows_of};
ghost use Rattle.table.specs.Walk.{fields_in};
ghost use Rattle.table.specs.Answers.{planning_of, plan_or_refuse, plan_read, file_read, written_of, output_after};

use bounds::SoundTable;
use refusal::Refusal;
use row::FileRows;
use scan::ScannedFile;
use wire::Part;

// A table in memory: n rows, row 1 at index 0. What read_table gives has 0 at n and above. It is kept by columns: the tick's vector code
// works on a column at a time, and the dispatcher's rows hold this very table, so that what a row has is said once.
#[derive(Clone, Copy)]
pub struct Table {
    pub n: usize,
    pub c: [u16; 16],
    pub d: [u16; 16],
    pub t: [u16; 16],
    pub rank: [u8; 16],
    pub m: [u16; 16],
}

// The plan of a table: each row's response bound R, its promotion time U and its rounds; 0 where there is no row. By columns, as the
// table is: the dispatcher's rows take u whole.
#[derive(Clone, Copy)]
pub struct Plan {
    pub r: [u16; 16],
    pub u: [u16; 16],
    pub rounds: [u16; 16],
}

// Why the rows of a table are refused, and at which row, counted from 0. No Option: only 5 is about no row (0 then, as in the rules' record),
// and whoever shows a row's field would take one apart that is never None.
#[derive(Clone, Copy)]
pub struct Refused {
    pub why: Refusal,
    pub row: usize,
}

// The refusal without its row.
impl From<Refused> for Refusal {
    ghost from_gives = { λ x why. why ≡ x.why };

    fn from(x: Refused) -> Refusal {
        x.why
    }
}

// A table with its plan.
#[derive(Clone, Copy)]
pub struct PlannedTable {
    pub table: Table,
    pub plan: Plan,
}

// Why a file is refused, the row that it is about, counted from 1, and the part of the file that is shown.
#[derive(Clone, Copy)]
pub struct FileRefusal {
    pub why: Refusal,
    pub row: Option<u8>,
    pub part: Part,
}

// The table that a file holds, with its plan, or why it is refused: checks 1 to 10, 21 and 22, in the documents' order.
pub fn read_table(s: &[u8]) -> Result<PlannedTable, FileRefusal>
    ensures { result ≡ file_read s.now }
{
    let n = scan::scan_fields(s)?;
    read_rows(ScannedFile { bytes: s, n })
}

// The table of a scanned file, and its plan; or why the file is refused: 6 to 10, 21 and 22.
fn read_rows(file: ScannedFile<'_>) -> Result<PlannedTable, FileRefusal>
    ensures { result ≡ plan_read (fields_in file.entry.bytes.now file.entry.n) (plan_fields (fields_in file.entry.bytes.now file.entry.n)) }
{
    let rows = file.rows();
    match plan_fields(rows) {
        Err(x) => Err(file.refusal(x)),
        Ok(plan) => Ok(PlannedTable {
            table: rows.table,
            plan,
        }),
    }
}

// The plan of a table, or the first of 5 to 10 and 22 that refuses it. 21 is about a tag, and a table in memory has none.
pub fn plan_table(tb: Table) -> Result<Plan, Refused>
    ensures { result ≡ planning_of (plan_or_refuse (rows_of tb)) }
{
    if 16 < tb.n {
        return Err(Refused {
            why: Refusal::Row17,
            row: 0,
        });
    }
    let tag = [form::ROW_TAG; 16];
    plan_fields(FileRows { table: tb, tag })
}

// The plan of a file's rows, or the first of 6 to 10, 21 and 22 that refuses them.
fn plan_fields(rows: FileRows) -> Result<Plan, Refused>
    ensures { result ≡ planning_of (plan_fields (fields_of rows)) }
{
    faults::rows_check(rows)?;
    SoundTable { table: rows.table }.plan()
}

// Writes a table's file to the front of out: 5 to 10 and 22, then 19. A refusal writes nothing, and bytes after the length stay.
pub fn write_table(tb: Table, out: &mut [u8]) -> Result<usize, Refusal>
    ensures value { result ≡ written_of (write (rows_of tb) out.old) }
    ensures out_after { out.new ≡ output_after out.old (write (rows_of tb) out.old) }
{
    plan_table(tb)?;
    writing::put_table(tb, out)
}
