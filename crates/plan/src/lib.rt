// Plans: the run of a plan, the search for one, and the text of the program.
#![tactic(auto)]

ghost use Rattle.std.specs.Prelude.{◌≡◌, [], length};
ghost use Rattle.sheet.specs.Format.{sheet_of};
ghost use Rattle.plan.specs.Calls.{run_of, rows_after, search_of};
ghost use Rattle.plan.specs.Text.{report_of, report_in};
ghost use Rattle.plan.specs.inner.Course.{counts_of};

use sheet::limits::PLACES;
use sheet::packed::LENGTH;
use table::Table;
use table::slots::Slots;

mod goals;
mod memory;
pub mod rows;
pub mod runs;
mod searches;
mod text;

// Bytes that the text of any run fits into.
pub const REPORT_LENGTH: usize = 8192;

// The numbers of eight slots: the memory of a search for which the caller lends none.
const OWN_MEMORY: usize = 2064;

// What a run says of a place: the place, the entries of its table and the clauses of its picture.
#[derive(Clone, Copy, Drop)]
pub struct Row {
    pub place: usize,
    pub entries: usize,
    pub clauses: usize,
}

// How a run ends; a place counts the moves, a number is document 01's. A refusal has number and position one by one, as the theorems have
// it (`FaultDemand.run`, `verdict_case`).
#[derive(Clone, Copy, Drop)]
pub enum Verdict {
    Reached,
    Short,
    Stopped(usize, u8),
    Full(usize),
    Refused(u8, usize),
}

// The verdict, and the last table that the run had. No Result: a refused run gives a table too (theorem `refused_run_lem`).
#[derive(Clone, Copy, Drop)]
pub struct RunAnswer {
    pub verdict: Verdict,
    pub table: Table,
}

// How a search ends. A refusal has number and position one by one, as the theorems and the README have it (`kind_case`).
#[derive(Clone, Copy, Drop)]
pub enum Kind {
    Reached,
    Full(usize),
    Nothing,
    Refused(u8, usize),
}

// The answer, and the plan: its moves in the first bytes, zeros after its length. No Result, and no slice of the plan: eight bytes come
// back from every search (theorems `eight_bytes`, `refused_search_lem`).
#[derive(Clone, Copy, Drop)]
pub struct SearchAnswer {
    pub kind: Kind,
    pub plan: [u8; 8],
    pub length: usize,
}

// The rows of a run as plain numbers: for each of the first count places, its entries and its clauses; zeros after them. The count has no
// bound in the type: `counts_of` makes such numbers of any rows.
#[derive(Clone, Copy, Drop)]
pub struct Counts {
    pub count: usize,
    pub entries: [usize; PLACES],
    pub clauses: [usize; PLACES],
}

impl Counts {
    // No row.
    #[tactic(auto, unfolding(crate::specs::inner::Course::counts_of, sheet::specs::Lists::pad))]
    pub fn new() -> Counts
        ensures { result ≡ counts_of [] }
    {
        Counts {
            count: 0,
            entries: [0; PLACES],
            clauses: [0; PLACES],
        }
    }
}

// A run with the numbers of its rows.
#[derive(Clone, Copy, Drop)]
pub struct Course {
    pub ran: RunAnswer,
    pub counts: Counts,
}

// The run of a sheet's plan, its rows written into the lent ones.
pub fn run(bytes: &[u8], rows: &mut [Row]) -> RunAnswer
    ensures value { result ≡ run_of (sheet_of bytes.now) (length rows.old) }
    ensures rows_after { rows.new ≡ rows_after (sheet_of bytes.now) rows.old }
{
    let course = runs::course(bytes, rows.len());
    rows::write_rows(rows, &course.counts);
    course.ran
}

// The output of the program `check` for a sheet, and its length; a buffer of fewer than 8,192 bytes is left as it was.
pub fn report(bytes: &[u8], out: &mut [u8]) -> usize
    ensures value { result ≡ report_of (sheet_of bytes.now) (length out.old) }
    ensures out_after { out.new ≡ report_in (sheet_of bytes.now) out.old }
{
    if out.len() < REPORT_LENGTH {
        return 0;
    }
    let mut table = Slots::new();
    let mut counts = Counts::new();
    let verdict = runs::course_into(bytes, PLACES, &mut table, &mut counts);
    text::write_text(out, verdict, &counts)
}

// The first plan of at most `limit` moves that is reached or full. It has eight slots of memory of its own.
pub fn search(bytes: &[u8], limit: usize) -> SearchAnswer
    ensures { result ≡ search_of (sheet_of bytes.now) limit }
{
    let mut memory = [0u32; OWN_MEMORY];
    search_with(bytes, limit, &mut memory)
}

// The same with a memory that the caller lends, and the quicker the more slots of 258 numbers it has. It is scratch: what it holds at entry
// does not matter, nor how long it is, and afterwards it holds anything.
pub fn search_with<'a, 'b>(bytes: &'a [u8], limit: usize, memory: &'b mut [u32]) -> SearchAnswer
    ensures { result ≡ search_of (sheet_of bytes.now) limit }
{
    let mut packed = [0u32; LENGTH];
    match sheet::decode(bytes, &mut packed) {
        Err(fault) => searches::refuse_search(fault.number, fault.position),
        Ok(sheet) => {
            if 8 < limit {
                return searches::refuse_search(8, 0);
            }
            // A reference to the whole array: its type has the length.
            let packed = &packed;
            searches::search_sheet(sheet, packed, limit, memory)
        }
    }
}
