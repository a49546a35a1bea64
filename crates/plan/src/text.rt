// The text of the program `check`, written into a lent buffer byte by byte: `write!` promises its text only where it succeeds, and not that
// it does, and the report cannot fail.
ghost use Rattle.std.specs.Prelude.{◌≡◌, ◌+◌, ◌*◌, ◌≤◌, length};
ghost use Rattle.plan.specs.Demand3.{refused_verdict};
ghost use Rattle.plan.specs.inner.Rows.{rows_in};
ghost use Rattle.plan.specs.Text.{decimal, clauses_text, row_text, rows_text, number_at, last_line, text_of};
ghost use Rattle.plan.specs.inner.Writing.{Wrote, WroteFirst};
ghost use Rattle.sheet.specs.Limits.{most_places, report_length};

use crate::rows::row_at;
use crate::{Counts, Row, Verdict};
use sheet::limits::FULL_PICTURE;

// The run was refused. (A function, since the text's contract says it by `refused_verdict`.)
#[tactic(auto, unfolding(crate::specs::Demand3::refused_verdict))]
pub(crate) fn is_refused(verdict: Verdict) -> bool
    ensures { result ≡ refused_verdict verdict }
{
    matches!(verdict, Verdict::Refused(_, _))
}

// A lent buffer, and where the next text goes in it.
#[derive(Drop)]
pub(crate) struct Writer<'a> {
    out: &'a mut [u8],
    at: usize,
}

impl<'a> Writer<'a> {
    // The bytes s.
    fn bytes(&mut self, s: &[u8])
        requires { self.old.at + length s.now ≤ length self.old.out.now }
        ensures { Wrote self.old s.now self.new }
    {
        let next = self.at + s.len();
        self.out[self.at..next].copy_from_slice(s);
        self.at = next;
    }

    // A number in decimal.
    fn number(&mut self, value: usize)
        requires { self.old.at + 20 ≤ length self.old.out.now }
        ensures wrote { Wrote self.old (decimal value) self.new }
        ensures upper_bound { self.new.at ≤ self.old.at + 20 }
    {
        if value >= 10 {
            self.number(value / 10);
        }
        self.bytes(&[b'0' + (value % 10) as u8]);
    }

    // The clauses of a row: `-` for a full picture.
    #[tactic(auto, unfolding(crate::specs::Text::clauses_text))]
    fn clauses(&mut self, clauses: usize)
        requires { self.old.at + 20 ≤ length self.old.out.now }
        ensures wrote { Wrote self.old (clauses_text clauses) self.new }
        ensures upper_bound { self.new.at ≤ self.old.at + 20 }
    {
        if clauses == FULL_PICTURE {
            return self.bytes(b"-");
        }
        self.number(clauses);
    }

    // A row as a line.
    fn row(&mut self, row: Row)
        requires { self.old.at + 63 ≤ length self.old.out.now }
        ensures wrote { Wrote self.old (row_text row) self.new }
        ensures upper_bound { self.new.at ≤ self.old.at + 63 }
    {
        self.number(row.place);
        self.bytes(b" ");
        self.number(row.entries);
        self.bytes(b" ");
        self.clauses(row.clauses);
        self.bytes(b"\n");
    }

    // The rows of the places arrived at.
    #[tactic(auto, using(crate::proofs::laws::text::TextBytes::wrote_no_rows))]
    fn rows(&mut self, counts: &Counts)
        requires rows_le_most_places { counts.now.count ≤ most_places }
        requires rows_in_bounds { self.old.at + 63 * counts.now.count ≤ length self.old.out.now }
        ensures wrote { Wrote self.old (rows_text (rows_in counts.now)) self.new }
        ensures upper_bound { self.new.at ≤ self.old.at + 63 * counts.now.count }
    {
        for i in 0..counts.count {
            self.row(row_at(counts, i));
        }
    }

    // A word, a number, `at` and a place, as a line.
    fn number_at(&mut self, word: &[u8], number: u8, place: usize)
        requires { (self.old.at + length word.now) + 45 ≤ length self.old.out.now }
        ensures { Wrote self.old (number_at word.now number place) self.new }
    {
        self.bytes(word);
        self.number(number as usize);
        self.bytes(b" at ");
        self.number(place);
        self.bytes(b"\n");
    }

    // The last line of the run.
    #[tactic(auto, unfolding(crate::specs::Text::last_line))]
    fn verdict(&mut self, verdict: Verdict)
        requires { self.old.at + 53 ≤ length self.old.out.now }
        ensures { Wrote self.old (last_line verdict) self.new }
    {
        match verdict {
            Verdict::Reached => self.bytes(b"reached\n"),
            Verdict::Short => self.bytes(b"short\n"),
            Verdict::Stopped(place, number) => self.number_at(b"stopped ", number, place),
            Verdict::Full(place) => {
                self.bytes(b"full at ");
                self.number(place);
                self.bytes(b"\n");
            }
            Verdict::Refused(number, position) => self.number_at(b"refused ", number, position),
        }
    }
    // The whole text of a run: its verdict, and the numbers of its rows.
    fn run(&mut self, verdict: Verdict, counts: &Counts)
        requires rows_le_most_places { counts.now.count ≤ most_places }
        requires report_length_in_bounds { self.old.at + report_length ≤ length self.old.out.now }
        ensures { Wrote self.old (text_of verdict (rows_in counts.now)) self.new }
    {
        if !is_refused(verdict) {
            self.bytes(b"place entries clauses\n");
            self.rows(counts);
        }
        self.verdict(verdict);
    }
}

// The whole text of a run, from the first byte of the buffer on.
#[tactic(auto, using(crate::proofs::laws::text::TextBytes::wrote_first))]
pub(crate) fn write_text(out: &mut [u8], verdict: Verdict, counts: &Counts) -> usize
    requires rows_le_most_places { counts.now.count ≤ most_places }
    requires report_length_in_bounds { report_length ≤ length out.old }
    ensures { WroteFirst out.old (text_of verdict (rows_in counts.now)) result out.new }
{
    let mut to = Writer { out, at: 0 };
    to.run(verdict, counts);
    to.at
}
