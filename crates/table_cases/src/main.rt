// Starts, steps and pictures over the cases of the standard input. What is due stands in stdout, made by tests/vectors/make.
// A line that starts with '#' is a heading. Any other line is bytes in hexadecimal, and the first of them says what to do (numbers
// have their high byte first):
//   00 SHEET        from here on, this sheet
//   01              start; the table it gives is the current one from here on
//   02 NUMBER       step the current table by the move of this number (8 bytes), and go on with the table that comes back
//   03 COUNT MASKS  the current table: its count (8 bytes), then 128 pairs of masks (4 bytes each), zeros where the line ends before
//   04 SIZE         the picture of the current table in a buffer of so many bytes (2 bytes, at most 4096), each 170 before
// Written: the answer; for 01 and 02 the count and a digest of all slots of the table that comes back and, where it is accepted and n
// is at most 10, how many worlds the table stands for; for 04 the number of clauses and a digest of the buffer.
#![tactic(auto)]

ghost use Rattle.std.specs.Prelude.{◌≤◌};

use cases::Bytes;
use std::io;
use std::io::Write;
use table::{Table, TableAnswer};

// A table with no entries.
fn empty_table() -> Table {
    Table {
        count: 0,
        trues: [0; 128],
        falses: [0; 128],
    }
}

// The world w has the literals of some entry.
fn covered(t: &Table, w: u32) -> bool {
    let entries = t.trues.iter().zip(&t.falses);
    for (trues, falses) in entries.take(t.count) {
        if *trues & !w == 0 && *falses & w == 0 {
            return true;
        }
    }
    false
}

// How many worlds of n propositions a table stands for, counted one by one.
fn count_worlds(t: &Table, n: u8) -> u64
    requires { n ≤ 10 }
{
    let worlds = 1u32 << n;
    (0..worlds).filter(|w| covered(t, *w)).count() as u64
}

// What a call on tables gave, written; the table that came back.
fn show_table(to: &mut impl Write, sheet: &[u8], r: TableAnswer) -> io::Result<Table> {
    let answer = r.answer;
    cases::write_answer(to, answer)?;
    let t = r.table;
    cases::write_table(to, t.count, &t.trues, &t.falses)?;
    if let (Ok(()), [n @ 0..=10, ..]) = (answer, sheet) {
        writeln!(to, "worlds {}", count_worlds(&t, *n))?;
    }
    Ok(t)
}

// The table of a line.
fn table_of(bytes: &[u8]) -> Table {
    let mut t = empty_table();
    t.count = cases::number(bytes, 1, 8) as usize;
    for i in 0..128 {
        t.trues[i] = (cases::number(bytes, 9 + 8 * i, 4) % 4294967296) as u32;
        t.falses[i] = (cases::number(bytes, 13 + 8 * i, 4) % 4294967296) as u32;
    }
    t
}

// The picture in a buffer of so many bytes, each 170 before: the answer and a digest of the buffer, written.
fn show_picture(to: &mut impl Write, sheet: &[u8], t: Table, size: usize) -> io::Result<()>
    requires { size ≤ 4096 }
{
    let mut room = [170; 4096];
    let buffer = &mut room[..size];
    let r = table::picture(sheet, t, buffer);
    cases::write_answer(to, r.answer)?;
    writeln!(
        to,
        "clauses {} buffer {}",
        r.clauses,
        cases::digest_bytes(buffer)
    )
}

// The size of a buffer, in two bytes.
fn buffer_size(bytes: &[u8]) -> usize
    ensures { result ≤ 4096 }
{
    (cases::number(bytes, 1, 2) % 4097) as usize
}

// What a case says, done: the current table from then on.
fn act(to: &mut impl Write, sheet: &[u8], t: Table, case: &[u8]) -> io::Result<Table> {
    match case {
        [1, ..] => show_table(to, sheet, table::start(sheet)),
        [2, ..] => show_table(
            to,
            sheet,
            table::step(sheet, t, cases::number(case, 1, 8) as usize),
        ),
        [3, ..] => Ok(table_of(case)),
        _ => {
            show_picture(to, sheet, t, buffer_size(case))?;
            Ok(t)
        }
    }
}

// The lines in turn, with the current sheet and the current table.
fn answer_lines(to: &mut impl Write, text: &[u8]) -> io::Result<()> {
    let mut sheet = Bytes::new();
    let mut bytes = Bytes::new();
    let mut t = empty_table();
    for line in text.split_inclusive(|b| *b == b'\n') {
        if let Some(case) = cases::read_case(to, line, &mut sheet, &mut bytes)? {
            t = act(to, sheet.as_slice(), t, case)?;
        }
    }
    Ok(())
}

fn main(rt: HostRuntime) -> io::Result<()> {
    let mut text = [0; cases::INPUT];
    let n = cases::read_full(&mut rt.stdin(), &mut text)?;
    answer_lines(&mut rt.stdout(), &text[..n])
}
