// The rows of a run, written into rows that the caller lends.
ghost use Rattle.std.specs.Prelude.{◌≡◌, ◌<◌, ◌≤◌, ◌++◌, length, set, drop};
ghost use Rattle.plan.specs.inner.Rows.{row_at, rows_in};
ghost use Rattle.sheet.specs.Limits.{most_places};

use crate::{Counts, Row};

// Writes one row.
pub(crate) fn write_row(rows: &mut [Row], at: usize, row: Row)
    requires { at < length rows.old }
    ensures { rows.new ≡ set rows.old at row }
{
    rows[at] = row;
}

// The row of a place, from the numbers of a run.
pub fn row_at(counts: &Counts, place: usize) -> Row
    requires { place < most_places }
    ensures { result ≡ row_at counts.now place }
{
    Row {
        place,
        entries: counts.entries[place],
        clauses: counts.clauses[place],
    }
}

// Writes the rows of the places arrived at; the others are kept.
#[tactic(auto, using(crate::proofs::laws::rows::WrittenRows::written_more))]
pub(crate) fn write_rows(rows: &mut [Row], counts: &Counts)
    requires { (counts.now.count ≤ length rows.old) × (counts.now.count ≤ most_places) }
    ensures { rows.new ≡ rows_in counts.now ++ drop counts.now.count rows.old }
{
    for i in 0..counts.count {
        write_row(rows, i, row_at(counts, i));
    }
}
