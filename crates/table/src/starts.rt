// The first table: the known literals, then a fresh table for each or-clause and for each oneof-clause.
ghost use Rattle.std.specs.Prelude.{◌≡◌, true, [], ◌<◌, map, length, drop, get_or};
ghost use Rattle.sheet.specs.Limits.{most_entries};
ghost use Rattle.sheet.specs.Literals as L;
ghost use Rattle.sheet.specs.Lists.{keep, collect};
ghost use Rattle.sheet.specs.inner.Packed as R;
ghost use Rattle.sheet.specs.inner.Decoded.{problem_in, Filled};
ghost use Rattle.table.specs.Start as spec;
ghost use Rattle.table.specs.Entries.{table_of};
ghost use Rattle.table.specs.inner.Outcomes.{Came};
ghost use Rattle.table.specs.inner.Puts.{Puts};
ghost use Rattle.table.specs.inner.Starts.{clause_of, others, ClausesFit};

use crate::entries::Entries;
use crate::slots::{Full, Slots};
use sheet::limits::ENTRIES;
use sheet::masks::{consistent, flip, join, literal, minus, next};
use sheet::packed::{GOAL, ONEOFS, ORS, SETS_WIDTH, Sets};
use sheet::{Fault, Literals, Sheet};

// What a clause says of its alternatives: one at least holds, or exactly one.
#[derive(Clone, Copy, Drop)]
pub(crate) enum Kind {
    Or,
    OneOf,
}

// Puts the entry with each alternative of an or-clause, in order.
pub(crate) fn widen_or(alts: &Sets, entry: Literals, to: &mut Slots<ENTRIES>) -> Result<(), Full>
    ensures { Puts most_entries (keep L.consistent (spec.candidates (spec.or_of alts.now) entry)) to.old result to.new }
{
    for i in 0..alts.len() {
        to.admit(join(entry, alts.at(i)))?;
    }
    Ok(())
}

// The alternatives but the one of number i, into an empty list. The list is lent: of one that is returned, the masks would be read for the
// copy right after they were written, which stalls.
pub(crate) fn lay_others(alts: &Sets, i: usize, rest: &mut Slots<8>)
    requires { rest.old ≡ [] }
    ensures { rest.new ≡ others i 0 alts.now }
{
    for j in 0..alts.len() {
        if j != i {
            rest.push(alts.at(j));
        }
    }
}

// Puts the piece with each alternative from `at` on made false in every way: by each of its literals that the piece lacks. One that the
// piece has would make an inconsistent set.
pub(crate) fn choose(
    alts: &Slots<8>,
    at: usize,
    piece: Literals,
    to: &mut Slots<ENTRIES>,
) -> Result<(), Full>
    requires { L.consistent piece ≡ true }
    ensures { Puts most_entries (keep L.consistent (spec.falsify (drop at alts.now) piece)) to.old result to.new }
{
    let size = alts.len();
    if size <= at {
        return to.offer_by_newest(piece);
    }
    let after = at + 1;
    let mut rest = minus(alts.entries().at(at), piece);
    // No count: the literals are those of a set that loses one at each turn.
    let mut l = next(rest, 0);
    while l < 64 {
        let one = literal(l);
        let chosen = join(piece, flip(one));
        if after < size {
            choose(alts, after, chosen, to)?;
        } else {
            to.offer_by_newest(chosen)?;
        }
        rest = minus(rest, one);
        l = next(rest, 0);
    }
    Ok(())
}

// Puts the entry with the alternative of number i, and the others made false.
pub(crate) fn widen_one(
    alts: &Sets,
    i: usize,
    entry: Literals,
    to: &mut Slots<ENTRIES>,
) -> Result<(), Full>
    requires { i < length alts.now }
    ensures { Puts most_entries
        (keep L.consistent (spec.falsify (others i 0 alts.now) (L.join entry (get_or alts.now i L.no_literal)))) to.old result to.new }
{
    let first = join(entry, alts.at(i));
    if !consistent(first) {
        return Ok(());
    }
    let mut rest = Slots::new();
    lay_others(alts, i, &mut rest);
    choose(&rest, 0, first, to)
}

// Puts the entry with each alternative of a oneof-clause, in order, and the others made false.
pub(crate) fn widen_oneof(alts: &Sets, entry: Literals, to: &mut Slots<ENTRIES>) -> Result<(), Full>
    ensures { Puts most_entries (keep L.consistent (spec.candidates (spec.one_of alts.now) entry)) to.old result to.new }
{
    for i in 0..alts.len() {
        widen_one(alts, i, entry, to)?;
    }
    Ok(())
}

// Puts the candidates of one entry.
pub(crate) fn widen(
    kind: Kind,
    alts: &Sets,
    entry: Literals,
    to: &mut Slots<ENTRIES>,
) -> Result<(), Full>
    ensures { Puts most_entries (keep L.consistent (spec.candidates (clause_of kind alts.now) entry)) to.old result to.new }
{
    match kind {
        Kind::Or => widen_or(alts, entry, to),
        Kind::OneOf => widen_oneof(alts, entry, to),
    }
}

// Puts the candidates of all entries.
pub(crate) fn widen_all(
    kind: Kind,
    alts: &Sets,
    entries: &Entries,
    to: &mut Slots<ENTRIES>,
) -> Result<(), Full>
    ensures { Puts most_entries (keep L.consistent (collect (spec.candidates (clause_of kind alts.now)) entries.now)) to.old result to.new }
{
    for i in 0..entries.len() {
        widen(kind, alts, entries.at(i), to)?;
    }
    Ok(())
}

// The fresh table that one clause builds, in the place of the one it is built from. A refusal leaves no table.
pub(crate) fn grow(kind: Kind, alts: &Sets, table: &mut Slots<ENTRIES>) -> Result<(), Fault>
    ensures { Came result table.new (spec.grow most_entries (clause_of kind alts.now) table.old) }
{
    let mut fresh = Slots::new();
    widen_all(kind, alts, &table.entries(), &mut fresh)?;
    if fresh.len() == 0 {
        return Err(Fault {
            number: 20,
            position: 0,
        });
    }
    *table = fresh;
    Ok(())
}

// The tables of all clauses of a section, one after the other; the first refusal stays. (The section has room for eight; a view for this
// one place would be longer.)
pub(crate) fn grow_all(
    kind: Kind,
    clauses: &[u32],
    size: usize,
    table: &mut Slots<ENTRIES>,
) -> Result<(), Fault>
    requires { ClausesFit size clauses.now }
    ensures { Came result table.new (spec.grow_all most_entries (map (clause_of kind) (R.clauses_at size clauses.now)) table.old) }
{
    for i in 0..size {
        let at = i * SETS_WIDTH;
        let alts = Sets::of(&clauses[at..at + SETS_WIDTH]);
        grow(kind, &alts, table)?;
    }
    Ok(())
}

// The first table of a sheet that was read, into a list of no entries.
pub fn first_into(sheet: Sheet, packed: &[u32], to: &mut Slots<ENTRIES>) -> Result<(), Fault>
    requires filled { Filled sheet packed.now }
    requires empty { to.old ≡ [] }
    ensures { Came result to.new (spec.start_table most_entries (problem_in sheet packed.now)) }
{
    to.push(sheet.known);
    grow_all(Kind::Or, &packed[ORS..ONEOFS], sheet.ors, to)?;
    grow_all(Kind::OneOf, &packed[ONEOFS..GOAL], sheet.oneofs, to)
}
