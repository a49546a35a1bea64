// Belief states as tables of entries: the first table of a sheet, the step of a move, and pictures.
#![tactic(auto)]

ghost use Rattle.std.specs.Prelude.{◌≡◌, [], length};
ghost use Rattle.sheet.specs.Format.{sheet_of};
ghost use Rattle.table.specs.Calls.{start_of, step_of};
ghost use Rattle.table.specs.Entries.{lent};
ghost use Rattle.table.specs.inner.Steps.{step_answer};
ghost use Rattle.table.specs.inner.Starts.{start_answer};
ghost use Rattle.table.specs.inner.Slots.{TableRoom};
ghost use Rattle.table.specs.inner.PictureClauses.{picture_answer};
ghost use Rattle.table.specs.PictureCalls.{picture_of, buffer_of};

use crate::slots::Slots;
use sheet::limits::ENTRIES;
use sheet::packed::LENGTH;
use sheet::{Answer, Fault};

pub mod entries;
mod picture_bytes;
pub mod picture_clauses;
mod picture_order;
pub mod slots;
pub mod starts;
pub mod steps;
pub mod tables;

// A belief state: the entries in the first count slots, bit p of both masks for proposition p (document 01: a table).
#[derive(Clone, Copy, Drop)]
pub struct Table {
    pub count: usize,
    pub trues: [u32; ENTRIES],
    pub falses: [u32; ENTRIES],
}

// What a call on tables gives. No Result: a refused call gives a table too (theorems `refused_step`, `refused_start`).
#[derive(Clone, Copy, Drop)]
pub struct TableAnswer {
    pub answer: Answer,
    pub table: Table,
}

// What the call `picture` gives: the number of clauses, 0 if refused. No Result: that 0 is promised (`picture_of`, theorem
// `refused_picture`).
#[derive(Clone, Copy, Drop)]
pub struct PictureAnswer {
    pub answer: Answer,
    pub clauses: usize,
}

// The first table of a sheet, into a list of no entries: a fault of the sheet, then the start.
pub fn start_lent(bytes: &[u8], to: &mut Slots<ENTRIES>) -> Result<(), Fault>
    requires { to.old ≡ [] }
    ensures { start_answer result to.new ≡ start_of (sheet_of bytes.now) }
{
    let mut packed = [0u32; LENGTH];
    let sheet = sheet::decode(bytes, &mut packed)?;
    starts::first_into(sheet, &packed, to)
}

// The first table of a sheet.
pub fn start(bytes: &[u8]) -> TableAnswer
    ensures { result ≡ start_of (sheet_of bytes.now) }
{
    let mut slots = Slots::new();
    match start_lent(bytes, &mut slots) {
        Ok(()) => TableAnswer {
            answer: Ok(()),
            table: Table::from(slots),
        },
        Err(fault) => TableAnswer {
            answer: Err(fault),
            table: Table::from(Slots::new()),
        },
    }
}

// The step of a lent table by the move of a number on a sheet, into an empty list: a fault of the sheet, 7, 22, then the step.
pub fn step_lent(
    bytes: &[u8],
    index: usize,
    trues: &[u32],
    falses: &[u32],
    count: usize,
    to: &mut Slots<ENTRIES>,
) -> Result<(), Fault>
    requires table_room { TableRoom trues.now falses.now }
    requires empty { to.old ≡ [] }
    ensures { step_answer (lent count trues.now falses.now) result to.new ≡ step_of (sheet_of bytes.now) (lent count trues.now falses.now) index }
{
    let mut packed = [0u32; LENGTH];
    let sheet = sheet::decode(bytes, &mut packed)?;
    if sheet.moves <= index {
        return Err(Fault {
            number: 7,
            position: 0,
        });
    }
    let Some(entries) = tables::described(sheet.n, trues, falses, count) else {
        return Err(Fault {
            number: 22,
            position: 0,
        });
    };
    steps::step_at(&packed, index, &entries, to)
}

// The step of a table by the move of a number on a sheet.
pub fn step(bytes: &[u8], table: Table, index: usize) -> TableAnswer
    ensures { result ≡ step_of (sheet_of bytes.now) table index }
{
    let mut slots = Slots::new();
    match step_lent(
        bytes,
        index,
        &table.trues,
        &table.falses,
        table.count,
        &mut slots,
    ) {
        Ok(()) => TableAnswer {
            answer: Ok(()),
            table: Table::from(slots),
        },
        Err(fault) => TableAnswer {
            answer: Err(fault),
            table,
        },
    }
}

// The picture of a lent table, written into the buffer, by how many clauses: a fault of the sheet, then 22, 21, 23.
fn picture_lent(bytes: &[u8], table: &Table, buffer: &mut [u8]) -> Result<usize, Fault>
    ensures value { picture_answer result ≡ picture_of (sheet_of bytes.now) table.now (length buffer.old) }
    ensures buffer_after { buffer.new ≡ buffer_of (sheet_of bytes.now) table.now buffer.old }
{
    let mut packed = [0u32; LENGTH];
    let sheet = sheet::decode(bytes, &mut packed)?;
    picture_bytes::draw(sheet.n, &table.trues, &table.falses, table.count, buffer)
}

// The picture of a table, written into the buffer.
pub fn picture(bytes: &[u8], table: Table, buffer: &mut [u8]) -> PictureAnswer
    ensures value { result ≡ picture_of (sheet_of bytes.now) table (length buffer.old) }
    ensures buffer_after { buffer.new ≡ buffer_of (sheet_of bytes.now) table buffer.old }
{
    match picture_lent(bytes, &table, buffer) {
        Ok(clauses) => PictureAnswer {
            answer: Ok(()),
            clauses,
        },
        Err(fault) => PictureAnswer {
            answer: Err(fault),
            clauses: 0,
        },
    }
}
