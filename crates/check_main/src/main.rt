// The program `check`: runs the plan of the sheet on the standard input, and writes its rows and its verdict.
#![tactic(auto)]

use std::io;
use std::io::Write;

// No accepted sheet is longer than 3,711 bytes, so the first 4,096 decide.
fn main(rt: HostRuntime) -> io::Result<()> {
    let mut sheet = [0; 4096];
    let n = cases::read_full(&mut rt.stdin(), &mut sheet)?;
    let mut text = [0; plan::REPORT_LENGTH];
    let k = plan::report(&sheet[..n], &mut text);
    rt.stdout().write_all(&text[..k])
}
