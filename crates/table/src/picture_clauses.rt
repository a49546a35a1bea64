// The clauses of a table in working order: those of the first entry, joined with those of each next entry.
ghost use Rattle.std.specs.Prelude.{◌≡◌, true, map, ◌≤◌, T, [], length};
ghost use Rattle.sheet.specs.Literals as L;
ghost use Rattle.sheet.specs.Lists.{Any, keep};
ghost use Rattle.table.specs.Picture as P;
ghost use Rattle.table.specs.inner.Puts.{Puts};
ghost use Rattle.table.specs.inner.PictureClauses.{as_option};
ghost use Rattle.table.specs.Picture.{size_of};
ghost use Rattle.sheet.specs.Limits.{most_clauses};

use crate::entries::Entries;
use crate::slots::{Full, Slots};
use sheet::Literals;
use sheet::limits::{CLAUSES, FULL_PICTURE};
use sheet::masks::{join, literal, next};

// The literals of an entry as one-literal clauses, ascending.
pub(crate) fn units<const N: usize>(entry: Literals, to: &mut Slots<N>)
    requires room { 64 ≤ N }
    requires few { N ≤ 4096 }
    requires empty { to.old ≡ [] }
    ensures { to.new ≡ P.units entry }
{
    // No count: an iterator over literals would have its end and its items to be proved too, and would be longer.
    let mut l = next(entry, 0);
    while l < 64 {
        to.push(literal(l));
        l = next(entry, l + 1);
    }
}

// Puts the clause joined with each of some others.
pub(crate) fn put_joined(
    clause: Literals,
    others: &Entries,
    to: &mut Slots<CLAUSES>,
) -> Result<(), Full>
    ensures { Puts most_clauses (keep L.consistent (map (L.join clause) others.now)) to.old result to.new }
{
    for i in 0..others.len() {
        to.admit(join(clause, others.at(i)))?;
    }
    Ok(())
}

// There is room for so many clauses as there are others, and some of them lies in the given one.
pub(crate) fn absorbs(clause: Literals, others: &Entries, room: usize) -> bool
    ensures { result ≡ true → Any (λ u. T (L.within u clause)) others.now × (length others.now ≤ room) }
{
    others.len() <= room && others.some_within(clause)
}

// The same as `put_joined`. Where one of the others lies in the clause, the clause is among what is joined and lies in all of it: it is put
// alone, if there is room for all.
#[tactic(auto, using(crate::proofs::laws::slots::AbsorbedCandidates::puts_alone))]
pub(crate) fn distribute(
    clause: Literals,
    others: &Entries,
    to: &mut Slots<CLAUSES>,
) -> Result<(), Full>
    ensures { Puts most_clauses (keep L.consistent (map (L.join clause) others.now)) to.old result to.new }
{
    let room = CLAUSES - to.len();
    if absorbs(clause, others, room) {
        return to.admit(clause);
    }
    put_joined(clause, others, to)
}

// Puts each of the clauses joined with each of the others.
pub(crate) fn join_lists(
    clauses: &Entries,
    others: &Entries,
    to: &mut Slots<CLAUSES>,
) -> Result<(), Full>
    ensures { Puts most_clauses (P.unions clauses.now others.now) to.old result to.new }
{
    for i in 0..clauses.len() {
        distribute(clauses.at(i), others, to)?;
    }
    Ok(())
}

// Puts the clauses so far with the literals of the next entry added.
pub(crate) fn fold(entry: Literals, clauses: &Entries, to: &mut Slots<CLAUSES>) -> Result<(), Full>
    ensures { Puts most_clauses (P.unions clauses.now (P.units entry)) to.old result to.new }
{
    let mut literals = Slots::<64>::new();
    units(entry, &mut literals);
    join_lists(clauses, &literals.entries(), to)
}

// The clauses of the entries: a fresh list of at most 256 for each entry after the first. None if they are too many.
#[tactic(auto, using(crate::proofs::laws::pictures::JoinedClauses::folding))]
pub(crate) fn clauses_of(entries: &Entries) -> Option<Slots<CLAUSES>>
    requires { 1 ≤ length entries.now }
    ensures { result ≡ as_option (P.primes most_clauses entries.now) }
{
    let mut clauses = Slots::new();
    units(entries.at(0), &mut clauses);
    for i in 1..entries.len() {
        let mut joined = Slots::new();
        fold(entries.at(i), &clauses.entries(), &mut joined).ok()?;
        clauses = joined;
    }
    Some(clauses)
}

// How many clauses the picture of the entries has; 257 if they are too many, which is what document 01's rows say.
#[tactic(auto, using(crate::proofs::laws::pictures::HandedClauses::counted))]
pub fn clause_count(entries: &Entries) -> usize
    requires { 1 ≤ length entries.now }
    ensures { result ≡ size_of (P.picture entries.now) }
{
    match clauses_of(entries) {
        Some(clauses) => clauses.len(),
        None => FULL_PICTURE,
    }
}
