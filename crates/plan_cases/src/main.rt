// The text of the program check, runs and searches over the cases of the standard input. What is due stands in stdout, made by
// tests/vectors/make. A line that starts with '#' is a heading. Any other line is bytes in hexadecimal, and the first of them says
// what to do for the current sheet (numbers have their high byte first):
//   00 SHEET  from here on, this sheet
//   01        what the program check prints
//   02 LENT   the run with so many rows lent (8 bytes)
//   03        the run with 65 row structs lent, zeros before the call
//   04 LIMIT  the search with this limit (8 bytes)
// Written: for 01 the text; for 02 and 03 the verdict, the count and a digest of all slots of the table that comes back, the number of
// rows (for 02: of those written; for 03: 65) and a digest of them; for 04 how the search ends, the length of the plan and a digest of
// its eight bytes.
#![tactic(auto)]

ghost use Rattle.std.specs.Prelude.{◌≡◌, replicate};
ghost use Rattle.sheet.specs.Format.{sheet_of};
ghost use Rattle.plan.specs.Calls.{run_of, rows_after};
ghost use Rattle.plan_cases.specs.Rows.{no_row};

use cases::Bytes;
use plan::{Counts, Kind, Row, RunAnswer, Verdict};
use sheet::Fault;
use std::io;
use std::io::Write;

// A run with rows of its own, by value.
#[derive(Clone, Copy, Drop)]
pub struct RanRows {
    pub ran: RunAnswer,
    pub rows: [Row; 65],
}

// How a run ends, as a line.
fn write_verdict(to: &mut impl Write, verdict: Verdict) -> io::Result<()> {
    match verdict {
        Verdict::Reached => writeln!(to, "reached"),
        Verdict::Short => writeln!(to, "short"),
        Verdict::Stopped(place, number) => writeln!(to, "stopped {number} at {place}"),
        Verdict::Full(place) => writeln!(to, "full at {place}"),
        Verdict::Refused(number, position) => {
            cases::write_refusal(to, Fault { number, position })
        },
    }
}

// The verdict, and the table that came back.
fn write_ran(to: &mut impl Write, ran: RunAnswer) -> io::Result<()> {
    let verdict = ran.verdict;
    write_verdict(to, verdict)?;
    let t = ran.table;
    cases::write_table(to, t.count, &t.trues, &t.falses)
}

// A digest of the numbers of all rows.
fn digest_counts(c: &Counts) -> u64 {
    let mut value: u64 = 0;
    for (entries, clauses) in c.entries.iter().zip(&c.clauses) {
        value = cases::mixed(value, *entries as u64);
        value = cases::mixed(value, *clauses as u64);
    }
    value
}

// A digest of rows.
fn digest_rows(rows: &[Row]) -> u64 {
    let mut value: u64 = 0;
    for row in rows {
        value = cases::mixed(value, row.place as u64);
        value = cases::mixed(value, row.entries as u64);
        value = cases::mixed(value, row.clauses as u64);
    }
    value
}

// What the program `check` prints for a sheet.
fn show_report(to: &mut impl Write, sheet: &[u8]) -> io::Result<()> {
    let mut text = [0; plan::REPORT_LENGTH];
    let n = plan::report(sheet, &mut text);
    to.write_all(&text[..n])
}

// The run of a sheet with so many rows lent.
fn show_course(to: &mut impl Write, sheet: &[u8], lent: usize) -> io::Result<()> {
    let c = plan::runs::course(sheet, lent);
    write_ran(to, c.ran)?;
    let counts = c.counts;
    let numbers = digest_counts(&counts);
    writeln!(to, "rows {} numbers {numbers}", counts.count)
}

// The run of a sheet with 65 rows of its own, lent to the call.
fn run_here(bytes: &[u8]) -> RanRows
    ensures ran_value { result.ran ≡ run_of (sheet_of bytes.now) 65 }
    ensures rows_value { result.rows ≡ rows_after (sheet_of bytes.now) (replicate 65 no_row) }
{
    let mut rows = [Row {
        place: 0,
        entries: 0,
        clauses: 0,
    }; 65];
    let ran = plan::run(bytes, &mut rows);
    RanRows { ran, rows }
}

// The run of a sheet with 65 rows.
fn show_run(to: &mut impl Write, sheet: &[u8]) -> io::Result<()> {
    let r = run_here(sheet);
    write_ran(to, r.ran)?;
    writeln!(to, "rows 65 numbers {}", digest_rows(&r.rows))
}

// How a search ends, as a line.
fn write_kind(to: &mut impl Write, kind: Kind) -> io::Result<()> {
    match kind {
        Kind::Reached => writeln!(to, "reached"),
        Kind::Full(place) => writeln!(to, "full at {place}"),
        Kind::Nothing => writeln!(to, "none"),
        Kind::Refused(number, position) => { cases::write_refusal(to, Fault { number, position }) },
    }
}

// The search on a sheet.
fn show_search(to: &mut impl Write, sheet: &[u8], limit: usize) -> io::Result<()> {
    let s = plan::search(sheet, limit);
    let kind = s.kind;
    write_kind(to, kind)?;
    writeln!(
        to,
        "length {} plan {}",
        s.length,
        cases::digest_bytes(&s.plan)
    )
}

// What a case says, done for the current sheet.
fn act(to: &mut impl Write, sheet: &[u8], case: &[u8]) -> io::Result<()> {
    let wide = cases::number(case, 1, 8) as usize;
    match case {
        [1, ..] => show_report(to, sheet),
        [2, ..] => show_course(to, sheet, wide),
        [3, ..] => show_run(to, sheet),
        _ => show_search(to, sheet, wide),
    }
}

// The lines in turn, with the current sheet.
fn answer_lines(to: &mut impl Write, text: &[u8]) -> io::Result<()> {
    let mut sheet = Bytes::new();
    let mut bytes = Bytes::new();
    for line in text.split_inclusive(|b| *b == b'\n') {
        if let Some(case) = cases::read_case(to, line, &mut sheet, &mut bytes)? {
            act(to, sheet.as_slice(), case)?;
        }
    }
    Ok(())
}

fn main(rt: HostRuntime) -> io::Result<()> {
    let mut text = [0; cases::INPUT];
    let n = cases::read_full(&mut rt.stdin(), &mut text)?;
    answer_lines(&mut rt.stdout(), &text[..n])
}
