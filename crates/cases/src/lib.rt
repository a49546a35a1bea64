// Lines of cases, shared by the programs that run vectors: reading them, writing what the calls give, and digests.
// A line that starts with '#' is a heading, which is written as it is; any other is bytes in hexadecimal, two digits for each byte,
// one space between bytes.
#![tactic(auto)]

ghost use Rattle.std.specs.Prelude.{◌≡◌, ◌≤◌, ◌<◌, length, take, IfOk, IfSome};
ghost use Rattle.cases.specs.Counts.{IsPrefixLen};

use sheet::{Answer, Fault};
use std::io;
use std::io::{Read, Write};

// Room for the whole input, and for the bytes of one line.
pub const INPUT: usize = 262144;

pub const LINE: usize = 8192;

// Bytes in a room of their own: the first so many of it.
#[derive(Drop)]
pub struct Bytes {
    room: [u8; LINE],
    size: usize,
    ghost within: { size ≤ 8192 },
}

impl Bytes {
    // No bytes.
    pub fn new() -> Bytes
        ensures { result.size ≡ 0 }
    {
        Bytes {
            room: [0; LINE],
            size: 0,
        }
    }

    // The bytes, lent.
    pub fn as_slice(&self) -> &[u8]
        ensures value { result.now ≡ take self.now.size self.now.room }
        ensures few { length result.now ≤ 8192 }
    {
        &self.room[..self.size]
    }

    // These bytes in place of those before, as many as fit.
    fn set(&mut self, bytes: &[u8]) {
        let size = bytes.len().min(LINE);
        for i in 0..size {
            self.room[i] = bytes[i];
        }
        self.size = size;
    }

    // The bytes of a line in place of those before, as many as fit.
    fn decode(&mut self, line: &[u8]) {
        // How many bytes there are so far: a line may have more groups than fit, and a last one of a single digit.
        let mut size = 0;
        for digits in line.chunks(3) {
            if let [high, low, ..] = digits {
                if size < LINE {
                    self.room[size] = byte(*high, *low);
                    size += 1;
                }
            }
        }
        self.size = size;
    }
}

// Reads until `out` is full or the input ends: how many bytes it put at the start of `out`.
pub fn read_full(from: &mut impl Read, out: &mut [u8]) -> io::Result<usize>
    ensures { IfOk result (λ n. IsPrefixLen n out.new) }
{
    // No count: each read takes as much as there is.
    let mut done: usize = 0;
    while done < out.len() {
        let n = from.read(&mut out[done..])?;
        if n == 0 {
            break;
        }
        done += n;
    }
    Ok(done)
}

// The value of a hexadecimal digit, and 0 for any other byte.
fn digit(c: u8) -> u8
    ensures { result < 16 }
{
    match c {
        b'0'..=b'9' => c - b'0',
        b'a'..=b'f' => c - b'a' + 10,
        _ => 0,
    }
}

// The byte of two digits.
fn byte(high: u8, low: u8) -> u8 {
    16 * digit(high) + digit(low)
}

// A line, without its line feed, read: a heading is written, and has no bytes; those of any other are put into `bytes`, and lent.
pub fn read_line<'b>(
    to: &mut impl Write,
    line: &[u8],
    bytes: &'b mut Bytes,
) -> io::Result<Option<&'b [u8]>>
    ensures { IfOk result (λ line. IfSome line (λ read. length read.now ≤ 8192)) }
{
    let line = line.strip_suffix(b"\n").unwrap_or(line);
    if line.starts_with(b"#") {
        write_line(to, line)?;
        return Ok(None);
    }
    bytes.decode(line);
    Ok(Some(bytes.as_slice()))
}

// A line read as a case for the current sheet. A line that is no case (a heading, a sheet, an empty line) gives none; a first byte 0 says
// that a sheet follows, which is the current one from there on.
pub fn read_case<'b>(
    to: &mut impl Write,
    line: &[u8],
    sheet: &mut Bytes,
    bytes: &'b mut Bytes,
) -> io::Result<Option<&'b [u8]>>
    ensures { IfOk result (λ case. IfSome case (λ read. length read.now ≤ 8192)) }
{
    let Some(case) = read_line(to, line, bytes)? else {
        return Ok(None);
    };
    match case {
        [] => Ok(None),
        [0, rest @ ..] => {
            sheet.set(rest);
            Ok(None)
        }
        _ => Ok(Some(case)),
    }
}

// The number in the `size` bytes from `at` on, high byte first; bytes past the end are 0.
pub fn number(bytes: &[u8], at: usize, size: usize) -> u64
    requires { (at < 4096) × (size ≤ 8) }
{
    let mut value: u64 = 0;
    for i in 0..size {
        let b = bytes.get(at + i).copied().unwrap_or(0);
        value = value % 72057594037927936 * 256 + u64::from(b);
    }
    value
}

// A line as it is.
pub fn write_line(to: &mut impl Write, line: &[u8]) -> io::Result<()> {
    to.write_all(line)?;
    to.write_all(b"\n")
}

// `refused N at P`, as a line.
pub fn write_refusal(to: &mut impl Write, fault: Fault) -> io::Result<()> {
    writeln!(to, "refused {} at {}", fault.number, fault.position)
}

// An answer, as a line.
pub fn write_answer(to: &mut impl Write, answer: Answer) -> io::Result<()> {
    match answer {
        Ok(()) => writeln!(to, "accepted"),
        Err(fault) => write_refusal(to, fault),
    }
}

// How many entries a table has, and a digest of all its slots, as a line.
pub fn write_table(
    to: &mut impl Write,
    count: usize,
    trues: &[u32; 128],
    falses: &[u32; 128],
) -> io::Result<()> {
    let slots = digest_slots(trues, falses);
    writeln!(to, "count {count} slots {slots}")
}

// One number more in a digest.
pub fn mixed(digest: u64, number: u64) -> u64
    ensures { result < 4294967296 }
{
    (digest % 4294967296 * 31 + number % 4294967296) % 4294967296
}

// A digest of some bytes.
pub fn digest_bytes(bytes: &[u8]) -> u64 {
    let mut value: u64 = 0;
    for b in bytes {
        value = mixed(value, u64::from(*b));
    }
    value
}

// A digest of all slots of a table.
fn digest_slots(trues: &[u32; 128], falses: &[u32; 128]) -> u64 {
    let mut value: u64 = 0;
    for (t, f) in trues.iter().zip(falses) {
        value = mixed(mixed(value, u64::from(*t)), u64::from(*f));
    }
    value
}
