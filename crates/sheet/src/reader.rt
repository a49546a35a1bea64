// Bytes to the parts of a sheet: a cursor reads them one after the other, and lays lists of sets, clauses and moves in lent numbers.
ghost use Rattle.std.specs.Prelude.{◌≡◌, ◌≤◌, ◌<◌, ◌*◌, length, get_or, MatchResult, IfOk};
ghost use Rattle.std.proofs.Math.Option.{none};
ghost use Rattle.sheet.specs.Form.{judged, times, admit};
ghost use Rattle.sheet.specs.Format as F;
ghost use Rattle.sheet.specs.inner.Packed as R;
ghost use Rattle.sheet.specs.inner.Decoded.{plan_of, plan_in, judgement_in};
ghost use Rattle.sheet.specs.inner.Reads.{Gives, ReadsAs, Reads, same, literal_before, fault_in, facts_in};
ghost use Rattle.sheet.specs.inner.Widths.{most_moves, sets_width, effects_width, move_width, clauses_width, moves_width, packed_length};

use crate::limits::{MOST_MOVES, PROPOSITIONS, Propositions};
use crate::packed::{
    EFFECTS, GOAL, LENGTH, MOVE_WIDTH, MOVES, ONEOFS, ORS, SETS_WIDTH, write_effect,
};
use crate::{Effect, Fault, Literals, Plan, Sheet, masks};

// Where reading stands: the bytes, and the position of the next one.
#[derive(Drop)]
struct Reader<'a> {
    bytes: &'a [u8],
    at: usize,
}

// Sections 1 to 4, the clauses by their counts.
#[derive(Clone, Copy, Drop)]
struct Facts {
    n: Propositions,
    known: Literals,
    ors: usize,
    oneofs: usize,
}

// The fault of a count byte from low to high.
fn count_fault(low: usize, high: usize, k: usize) -> Option<u8>
    ensures { result ≡ fault_in (F.count_fault low high k) }
{
    if k < low || high < k {
        return Some(2);
    }
    None
}

// The fault of a literal byte. floor is one more than the literal before, 0 for the first.
fn literal_fault(n: Propositions, floor: usize, b: usize) -> Option<u8>
    ensures { result ≡ fault_in (F.literal_fault n.count (literal_before floor) b) }
{
    if 2 * n.count <= b {
        return Some(3);
    }
    if b < floor {
        return Some(4);
    }
    if b == floor && floor % 2 == 1 {
        return Some(5);
    }
    None
}

// The fault of the number of one of the m moves.
fn number_fault(m: usize, b: usize) -> Option<u8>
    ensures { result ≡ fault_in (F.number_fault m b) }
{
    if m <= b {
        return Some(7);
    }
    None
}

const NONE: Literals = Literals {
    trues: 0,
    falses: 0,
};

impl<'a> Reader<'a> {
    // The byte that is next.
    fn peek(&self) -> Result<usize, Fault>
        ensures { MatchResult
            result
            (λ b. (self.now.at < length self.now.bytes.now) × (b ≡ get_or self.now.bytes.now self.now.at 0))
            (λ f. (length self.now.bytes.now ≤ self.now.at) × (f ≡ record { number = 1; position = length self.now.bytes.now })) }
    {
        match self.bytes.get(self.at) {
            Some(b) => Ok(usize::from(*b)),
            None => Err(Fault {
                number: 1,
                position: self.bytes.len(),
            }),
        }
    }

    // The byte b that is next, unless it has a fault.
    fn judged(&mut self, b: usize, fault: Option<u8>) -> Result<usize, Fault>
        requires { self.old.at < length self.old.bytes.now }
        ensures fine { IfOk result (λ v. (v ≡ b) × (fault ≡ None)) }
        ensures bytes { self.new.bytes.now ≡ self.old.bytes.now }
        ensures gives { (k : _) → fault ≡ fault_in k → Gives same (admit k b self.old.at) result self.new.at }
    {
        if let Some(number) = fault {
            return Err(Fault {
                number,
                position: self.at,
            });
        }
        self.at += 1;
        Ok(b)
    }

    // A count byte from low to high.
    fn count(&mut self, low: usize, high: usize) -> Result<usize, Fault>
        ensures reads { Reads (F.count low high) self.old result self.new }
        ensures most { IfOk result (λ k. k ≤ high) }
    {
        let k = self.peek()?;
        self.judged(k, count_fault(low, high, k))
    }

    // A literal byte after those of a list that were read before it.
    fn literal(&mut self, n: Propositions, floor: usize) -> Result<usize, Fault>
        ensures reads { Reads (judged (F.literal_fault n.count (literal_before floor))) self.old result self.new }
        ensures below { IfOk result (λ b. b < 2 * n.count) }
    {
        let b = self.peek()?;
        self.judged(b, literal_fault(n, floor, b))
    }

    // A list of low to high literals, after its count.
    fn literals(&mut self, n: Propositions, low: usize, high: usize) -> Result<Literals, Fault>
        ensures { Reads (F.literals n.count low high) self.old result self.new }
    {
        let k = self.count(low, high)?;
        let mut l = NONE;
        let mut floor = 0;
        for _ in 0..k {
            let b = self.literal(n, floor)?;
            l = masks::join(l, masks::literal(b));
            floor = b + 1;
        }
        Ok(l)
    }

    // A condition and a result.
    fn effect(&mut self, n: Propositions) -> Result<Effect, Fault>
        ensures { Reads (F.effect n.count) self.old result self.new }
    {
        let condition = self.literals(n, 0, 4)?;
        let result = self.literals(n, 1, 4)?;
        Ok(Effect { condition, result })
    }

    // k effects, laid out.
    fn effects(&mut self, n: Propositions, k: usize, effects: &mut [u32]) -> Result<(), Fault>
        requires few { k ≤ 8 }
        requires room { length effects.old ≡ effects_width }
        ensures { ReadsAs (λ _. R.effects_at k effects.new) (times k (F.effect n.count)) self.old result self.new }
    {
        for i in 0..k {
            let e = self.effect(n)?;
            write_effect(effects, 4 * i, e);
        }
        Ok(())
    }

    // A precondition and the effects, laid in the 35 numbers of a move.
    fn action(&mut self, n: Propositions, item: &mut [u32]) -> Result<(), Fault>
        requires { length item.old ≡ move_width }
        ensures { ReadsAs (λ _. R.action_from item.new) (F.action n.count) self.old result self.new }
    {
        let precondition = self.literals(n, 0, 8)?;
        let k = self.count(0, 8)?;
        item[0] = precondition.trues;
        item[1] = precondition.falses;
        item[2] = k as u32;
        self.effects(n, k, &mut item[EFFECTS..MOVE_WIDTH])
    }

    // Section 5, laid out: how many moves.
    fn actions(&mut self, n: Propositions, section: &mut [u32]) -> Result<usize, Fault>
        requires { length section.old ≡ moves_width }
        ensures reads { ReadsAs (λ k. R.actions_at k section.new) (F.actions n.count) self.old result self.new }
        ensures few { IfOk result (λ k. k ≤ most_moves) }
    {
        let k = self.count(1, MOST_MOVES)?;
        for i in 0..k {
            let at = i * MOVE_WIDTH;
            self.action(n, &mut section[at..at + MOVE_WIDTH])?;
        }
        Ok(k)
    }

    // least to 8 lists of 1 to widest literals, laid in 17 numbers: the alternatives of a clause, or section 6, the goal. In line, as are the
    // clauses: where these are small, a call for each of them takes a quarter more.
    #[inline(always)]
    fn sets(
        &mut self,
        n: Propositions,
        least: usize,
        widest: usize,
        item: &mut [u32],
    ) -> Result<(), Fault>
        requires { length item.old ≡ sets_width }
        ensures { ReadsAs (λ _. R.sets_in item.new) (F.list_of least 8 (F.literals n.count 1 widest)) self.old result self.new }
    {
        let k = self.count(least, 8)?;
        item[0] = k as u32;
        for i in 0..k {
            let a = self.literals(n, 1, widest)?;
            item[2 * i + 1] = a.trues;
            item[2 * i + 2] = a.falses;
        }
        Ok(())
    }

    // Section 3 or 4, laid out: how many clauses.
    #[inline(always)]
    fn clauses(&mut self, n: Propositions, section: &mut [u32]) -> Result<usize, Fault>
        requires { length section.old ≡ clauses_width }
        ensures { ReadsAs (λ k. R.clauses_at k section.new) (F.clauses n.count) self.old result self.new }
    {
        let k = self.count(0, 8)?;
        for i in 0..k {
            let at = i * SETS_WIDTH;
            self.sets(n, 1, 4, &mut section[at..at + SETS_WIDTH])?;
        }
        Ok(k)
    }

    // The number of one of the m moves.
    fn number(&mut self, m: usize) -> Result<usize, Fault>
        ensures reads { Reads (judged (F.number_fault m)) self.old result self.new }
        ensures below { IfOk result (λ b. b < m) }
    {
        let b = self.peek()?;
        self.judged(b, number_fault(m, b))
    }

    // Section 7.
    fn plan(&mut self, m: usize) -> Result<Plan, Fault>
        requires { m ≤ most_moves }
        ensures reads { ReadsAs plan_in (F.plan m) self.old result self.new }
        ensures padded { IfOk result (λ plan. plan ≡ plan_of (plan_in plan)) }
        ensures few { IfOk result (λ plan. plan.count ≤ 64) }
    {
        let count = self.count(0, 64)?;
        let mut numbers = [0u8; 64];
        for slot in &mut numbers[..count] {
            *slot = self.number(m)? as u8;
        }
        Ok(Plan { count, numbers })
    }

    // Sections 1 to 4, the clauses laid in the packed array.
    fn facts(&mut self, packed: &mut [u32]) -> Result<Facts, Fault>
        requires { length packed.old ≡ packed_length }
        ensures { ReadsAs (λ f. facts_in f packed.new) F.facts self.old result self.new }
    {
        let count = self.count(1, PROPOSITIONS)?;
        let n = Propositions { count };
        let known = self.literals(n, 0, PROPOSITIONS)?;
        let ors = self.clauses(n, &mut packed[ORS..ONEOFS])?;
        let oneofs = self.clauses(n, &mut packed[ONEOFS..GOAL])?;
        Ok(Facts {
            n,
            known,
            ors,
            oneofs,
        })
    }
}

// The sheet, its clauses, goal and moves laid in the packed array, or its first fault.
pub(crate) fn sheet_in(s: &[u8], packed: &mut [u32]) -> Result<Sheet, Fault>
    requires { length packed.old ≡ packed_length }
    ensures judgement { judgement_in result packed.new ≡ F.sheet_of s.now }
    ensures few { IfOk result (λ sheet. sheet.plan.count ≤ 64) }
{
    let mut r = Reader { bytes: s, at: 0 };
    let facts = r.facts(packed)?;
    let moves = r.actions(facts.n, &mut packed[MOVES..LENGTH])?;
    r.sets(facts.n, 0, 8, &mut packed[GOAL..MOVES])?;
    let plan = r.plan(moves)?;
    if r.at < s.len() {
        return Err(Fault {
            number: 6,
            position: r.at,
        });
    }
    Ok(Sheet {
        n: facts.n.count,
        known: facts.known,
        ors: facts.ors,
        oneofs: facts.oneofs,
        moves,
        plan,
    })
}
