// Whether entries are as document 01 describes a table (22).
ghost use Rattle.std.specs.Prelude.{◌≡◌, ◌||◌, cond, Some, None};
ghost use Rattle.sheet.specs.Literals as L;
ghost use Rattle.sheet.specs.Lists.{all_of};
ghost use Rattle.table.specs.Minimal as M;
ghost use Rattle.table.specs.Entries.{entries_of};
ghost use Rattle.table.specs.inner.Slots.{TableRoom};
ghost use Rattle.sheet.specs.Limits.{most_entries};

use crate::entries::Entries;
use sheet::limits::ENTRIES;
use sheet::{Literals, masks};

// No literal with its complement, no proposition at n or above.
#[tactic(auto, unfolding(crate::specs::Minimal::proper))]
pub(crate) fn proper(n: usize, e: Literals) -> bool
    ensures { result ≡ M.proper n e }
{
    masks::consistent(e) && masks::below(n, e)
}

// One of the two lies in the other.
pub(crate) fn nested(a: Literals, b: Literals) -> bool
    ensures { result ≡ (L.within a b || L.within b a) }
{
    masks::within(a, b) || masks::within(b, a)
}

// Every entry is proper.
#[tactic(auto, using(crate::proofs::laws::arrays::ListTests::all_at, crate::proofs::laws::arrays::ListTests::all_done))]
pub(crate) fn all_proper(n: usize, entries: &Entries) -> bool
    ensures { result ≡ all_of (M.proper n) entries.now }
{
    for i in 0..entries.len() {
        if !proper(n, entries.at(i)) {
            return false;
        }
    }
    true
}

// No entry lies in another. The first pair found nested ends the search. Not in line: in `described`, which gives the entries, the jumps out
// of the loop are long, and it takes a third more.
#[inline(never)]
#[tactic(auto, using(crate::proofs::laws::slots::PairLoops::pairs_tested))]
pub(crate) fn is_antichain(entries: &Entries) -> bool
    ensures { result ≡ M.antichain entries.now }
{
    let mut apart = true;
    'pairs: for i in 0..entries.len() {
        let a = entries.at(i);
        for j in i + 1..entries.len() {
            if nested(a, entries.at(j)) {
                apart = false;
                break 'pairs;
            }
        }
    }
    apart
}

// The entries in the first slots, if they are 1 to 128, each proper, none in another.
#[tactic(auto, using(crate::proofs::laws::arrays::HeldLists::length_entries_of), unfolding(crate::specs::Minimal::described))]
pub(crate) fn described<'a>(
    n: usize,
    trues: &'a [u32],
    falses: &'a [u32],
    count: usize,
) -> Option<Entries<'a>>
    requires { TableRoom trues.now falses.now }
    ensures { result ≡ cond (M.described most_entries n (entries_of count trues.now falses.now)) (Some (entries_of count trues.now falses.now)) None }
{
    if count < 1 || ENTRIES < count {
        return None;
    }
    let entries = Entries::of(trues, falses, count);
    if !all_proper(n, &entries) || !is_antichain(&entries) {
        return None;
    }
    Some(entries)
}
