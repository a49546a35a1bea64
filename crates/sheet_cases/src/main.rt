// Judges each sheet of the standard input and writes the answers. What is due stands in stdout, made by tests/vectors/make.
// A line that starts with '#' is a heading. Any other line is the bytes of a sheet in hexadecimal; an empty line is a sheet of none.
// Written: the answer of each sheet.
#![tactic(auto)]

use cases::Bytes;
use std::io;
use std::io::Write;

// The lines in turn.
fn answer_lines(to: &mut impl Write, text: &[u8]) -> io::Result<()> {
    let mut bytes = Bytes::new();
    for line in text.split_inclusive(|b| *b == b'\n') {
        if let Some(sheet) = cases::read_line(to, line, &mut bytes)? {
            cases::write_answer(to, sheet::judge(sheet))?;
        }
    }
    Ok(())
}

fn main(rt: HostRuntime) -> io::Result<()> {
    let mut text = [0; cases::INPUT];
    let n = cases::read_full(&mut rt.stdin(), &mut text)?;
    answer_lines(&mut rt.stdout(), &text[..n])
}
