// The step of a table: 24, then 25 by pairs of effects, then the pieces of each entry, each image put in its turn.
ghost use Rattle.std.specs.Prelude.{◌≡◌, true, [], map, ◌<◌, length, get_or, drop};
ghost use Rattle.sheet.specs.Literals as L;
ghost use Rattle.sheet.specs.Limits.{most_entries};
ghost use Rattle.sheet.specs.Lists.{All, any_of, all_of, collect};
ghost use Rattle.sheet.specs.inner.Packed as R;
ghost use Rattle.table.specs.Step as S;
ghost use Rattle.table.specs.inner.Puts.{Puts};
ghost use Rattle.table.specs.inner.Pairs as P;
ghost use Rattle.table.specs.inner.Steps as M;
ghost use Rattle.table.specs.inner.Outcomes.{Came};
ghost use Rattle.table.specs.inner.Carry.{Steady, Carried, Splits, Skips, SplitFits, part_at, carried_at};

use crate::entries::Entries;
use crate::slots::{Full, Slots};
use sheet::limits::ENTRIES;
use sheet::packed::{EFFECTS, Effects, LENGTH, MOVE_WIDTH, MOVES, set_from};
use sheet::{Effect, Fault, Literals, masks};

// The precondition lies in every entry (24 if not).
#[tactic(auto, using(crate::proofs::laws::arrays::ListTests::all_at, crate::proofs::laws::arrays::ListTests::all_done))]
pub(crate) fn sure(precondition: Literals, entries: &Entries) -> bool
    ensures { result ≡ all_of (λ d. L.within precondition d) entries.now }
{
    for i in 0..entries.len() {
        if !masks::within(precondition, entries.at(i)) {
            return false;
        }
    }
    true
}

// Some entry admits c: both together are consistent. The scan has no way out before its end, so that the compiler can test several at
// once.
#[tactic(auto, using(crate::proofs::laws::arrays::ListTests::any_at, crate::proofs::laws::arrays::ListTests::any_done))]
pub(crate) fn admitted(c: Literals, entries: &Entries) -> bool
    ensures { result ≡ any_of (λ d. L.consistent (L.join d c)) entries.now }
{
    let mut found = false;
    for i in 0..entries.len() {
        if masks::consistent(masks::join(entries.at(i), c)) {
            found = true;
        }
    }
    found
}

// The results of e and f clash, and some entry admits both conditions.
pub(crate) fn opposed(e: Effect, f: Effect, entries: &Entries) -> bool
    ensures { result ≡ any_of (λ d. P.opposed e d f) entries.now }
{
    if masks::clash(e.result, f.result) {
        return admitted(masks::join(e.condition, f.condition), entries);
    }
    false
}

// Some effect from `from` on is opposed to e in some entry.
#[tactic(auto, using(crate::proofs::laws::arrays::ListTests::any_at, crate::proofs::laws::arrays::ListTests::any_done))]
pub(crate) fn opposes(effects: &Effects, e: Effect, from: usize, entries: &Entries) -> bool
    ensures { result ≡ any_of (λ f. any_of (λ d. P.opposed e d f) entries.now) (drop from effects.now) }
{
    for j in from..effects.len() {
        if opposed(e, effects.at(j), entries) {
            return true;
        }
    }
    false
}

// Two effects are opposed in some entry (25). Whether their results clash is asked once for a pair, not in each entry.
pub(crate) fn conflicting(effects: &Effects, entries: &Entries) -> bool
    ensures { result ≡ any_of (λ d. P.contradicts effects.now d) entries.now }
{
    for i in 0..effects.len() {
        if opposes(effects, effects.at(i), i + 1, entries) {
            return true;
        }
    }
    false
}

// The piece with the complement of the literal l.
pub(crate) fn without(piece: Literals, l: usize) -> Literals
    requires { l < 64 }
    ensures { result ≡ L.join piece (L.flip (L.literal l)) }
{
    masks::join(piece, masks::flip(masks::literal(l)))
}

// The place of the first effect that splits a piece, and the results of those before it.
#[derive(Clone, Copy, Drop)]
pub(crate) struct Undecided {
    pub at: usize,
    pub results: Literals,
}

// The first effect from `at` on whose condition splits the piece, not below their count if there is none; `results` are those before `at`.
// (No Option: `Skips` speaks of a place in both cases, and what is handed on is one value.)
pub(crate) fn skip_decided(
    effects: &Effects,
    at: usize,
    piece: Literals,
    results: Literals,
) -> Undecided
    requires { Carried effects.now at piece results }
    ensures skips { Skips effects.now at piece result }
    ensures splits { result.at < length effects.now → Splits (get_or effects.now result.at R.no_effect).condition piece }
{
    let mut sum = results;
    for i in at..effects.len() {
        let e = effects.at(i);
        if masks::within(e.condition, piece) {
            sum = masks::join(e.result, sum);
        } else if !masks::clash(e.condition, piece) {
            return Undecided {
                at: i,
                results: sum,
            };
        }
    }
    Undecided {
        at: at.max(effects.len()),
        results: sum,
    }
}

// Part t of a piece that a condition splits: 0 has all of it, l + 1 the complement of its literal l.
#[tactic(auto, unfolding(crate::specs::inner::Carry::part_at))]
pub(crate) fn part(piece: Literals, condition: Literals, t: usize) -> Literals
    requires { t < 65 }
    ensures { result ≡ part_at piece condition t }
{
    if t == 0 {
        return masks::join(piece, condition);
    }
    without(piece, t - 1)
}

// The results in part t: those of the effect are added in part 0 alone.
#[tactic(auto, unfolding(crate::specs::inner::Carry::carried_at))]
pub(crate) fn carried(results: Literals, res: Literals, t: usize) -> Literals
    ensures { result ≡ carried_at results res t }
{
    if t == 0 {
        return masks::join(res, results);
    }
    results
}

// The pieces of `piece` by the conditions from the undecided one on, which splits it, each put in its turn: part 0, then a part for each
// literal that is missing.
pub(crate) fn split(
    effects: &Effects,
    undecided: Undecided,
    piece: Literals,
    to: &mut Slots<ENTRIES>,
) -> Result<(), Full>
    requires { SplitFits effects.now undecided piece }
    ensures { Puts most_entries (map (S.image effects.now) (S.pieces (drop undecided.at effects.now) piece)) to.old result to.new }
{
    let size = effects.len();
    let Undecided { at, results } = undecided;
    let Effect { condition, result } = effects.at(at);
    let missing = masks::minus(condition, piece);
    let next = at + 1;
    // No count: the next part is that of the next missing literal.
    let mut t: usize = 0;
    while t < 65 {
        let p = part(piece, condition, t);
        let s = skip_decided(effects, next, p, carried(results, result, t));
        if s.at < size {
            split(effects, s, p, to)?;
        } else {
            to.offer_by_newest(masks::replace(p, s.results))?;
        }
        t = masks::next(missing, t) + 1;
    }
    Ok(())
}

// The pieces of an entry, each put in its turn.
pub(crate) fn branch(
    effects: &Effects,
    entry: Literals,
    to: &mut Slots<ENTRIES>,
) -> Result<(), Full>
    requires steady { Steady effects.now }
    requires entry_steady { L.consistent entry ≡ true }
    ensures { Puts most_entries (map (S.image effects.now) (S.pieces effects.now entry)) to.old result to.new }
{
    let none = Literals {
        trues: 0,
        falses: 0,
    };
    let s = skip_decided(effects, 0, entry, none);
    if s.at < effects.len() {
        return split(effects, s, entry, to);
    }
    to.offer(masks::replace(entry, s.results))
}

// The pieces of the entries, each put in its turn.
pub(crate) fn branch_all(
    effects: &Effects,
    entries: &Entries,
    to: &mut Slots<ENTRIES>,
) -> Result<(), Full>
    requires steady { Steady effects.now }
    requires entries_steady { All (λ d. L.consistent d ≡ true) entries.now }
    ensures { Puts most_entries (map (S.image effects.now) (collect (S.pieces effects.now) entries.now)) to.old result to.new }
{
    for i in 0..entries.len() {
        branch(effects, entries.at(i), to)?;
    }
    Ok(())
}

// The step of the entries by the move of a number, into an empty list: 24, 25, then the images, 21 if they are too many.
pub fn step_at(
    packed: &[u32],
    index: usize,
    entries: &Entries,
    to: &mut Slots<ENTRIES>,
) -> Result<(), Fault>
    requires fits { M.MoveFits packed.now index entries.now }
    requires empty { to.old ≡ [] }
    ensures { Came result to.new (S.step_table most_entries (R.action_of (R.moves_in packed.now) index) entries.now) }
{
    let moves = &packed[MOVES..LENGTH];
    let at = index * MOVE_WIDTH;
    let item = &moves[at..at + MOVE_WIDTH];
    let precondition = set_from(item, 0);
    let effects = Effects::of(&item[EFFECTS..MOVE_WIDTH], item[2] as usize);
    if !sure(precondition, entries) {
        return Err(Fault {
            number: 24,
            position: 0,
        });
    }
    if conflicting(&effects, entries) {
        return Err(Fault {
            number: 25,
            position: 0,
        });
    }
    branch_all(&effects, entries, to)?;
    Ok(())
}
