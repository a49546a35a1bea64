// The sheet: its bytes judged and read, one pass, into a planning problem and a plan.
#![tactic(auto)]

ghost use Rattle.std.specs.Prelude.{◌≡◌, ◌≤◌, IfOk};
ghost use Rattle.sheet.specs.Format.{sheet_of};
ghost use Rattle.sheet.specs.inner.Decoded.{judgement_in};
ghost use Rattle.sheet.specs.Calls.{judge_of};

pub mod limits;
pub mod masks;
pub mod packed;
mod reader;

// A set of literals: bit p of trues for "p is true", of falses for "p is false".
#[derive(Clone, Copy, PartialEq, Eq, PartialOrd, Ord, Drop)]
pub struct Literals {
    pub trues: u32,
    pub falses: u32,
}

// Where the condition holds, the result becomes true.
#[derive(Clone, Copy, PartialEq, Eq, PartialOrd, Ord, Drop)]
pub struct Effect {
    pub condition: Literals,
    pub result: Literals,
}

// Move numbers, counted from 0.
#[derive(Clone, Copy, Drop)]
pub struct Plan {
    pub count: usize,
    pub numbers: [u8; 64],
}

// A sheet that was read: a planning problem over the propositions below n, and a plan. Its clauses, its goal and its moves lie
// in the packed array that the caller lends (module packed); here are the counts of clauses and moves.
#[derive(Clone, Copy, Drop)]
pub struct Sheet {
    pub n: usize,
    pub known: Literals,
    pub ors: usize,
    pub oneofs: usize,
    pub moves: usize,
    pub plan: Plan,
}

// A fault, or another refusal: document 01's number, and its position.
#[derive(Clone, Copy, PartialEq, Eq, Drop)]
pub struct Fault {
    pub number: u8,
    pub position: usize,
}

// Accepted, or refused.
pub type Answer = Result<(), Fault>;

// Judges a sheet.
pub fn judge(s: &[u8]) -> Answer
    ensures { result ≡ judge_of s.now }
{
    let mut packed = [0u32; packed::LENGTH];
    decode(s, &mut packed)?;
    Ok(())
}

// Judges a sheet and reads it, its clauses, goal and moves into the packed array: what the layers above start from.
pub fn decode(s: &[u8], packed: &mut [u32; packed::LENGTH]) -> Result<Sheet, Fault>
    ensures judgement { judgement_in result packed.new ≡ sheet_of s.now }
    ensures few { IfOk result (λ sheet. sheet.plan.count ≤ 64) }
{
    reader::sheet_in(s, packed)
}
