// The goal test: each clause of the goal shares a literal with an entry, and so with every entry of a belief state.
ghost use Rattle.std.specs.Prelude.{◌≡◌};
ghost use Rattle.sheet.specs.Literals as L;
ghost use Rattle.sheet.specs.Lists.{all_of};
ghost use Rattle.plan.specs.Run.{in_goal};

use sheet::packed::Sets;
use sheet::{Literals, masks};
use table::entries::Entries;

// Some literal of the clause c lies in d.
#[tactic(auto, unfolding(sheet::specs::Literals::meets))]
pub(crate) fn shares(c: Literals, d: Literals) -> bool
    ensures { result ≡ L.meets c d }
{
    masks::clash(masks::flip(c), d)
}

// Each clause of the goal shares a literal with the entry d.
#[tactic(auto, unfolding(crate::specs::Run::in_goal))]
pub(crate) fn in_goal(goal: &Sets, d: Literals) -> bool
    ensures { result ≡ in_goal goal.now d }
{
    for i in 0..goal.len() {
        if !shares(goal.at(i), d) {
            return false;
        }
    }
    true
}

// The entries are all in the goal.
pub(crate) fn all_in_goal(goal: &Sets, entries: &Entries) -> bool
    ensures { result ≡ all_of (in_goal goal.now) entries.now }
{
    for i in 0..entries.len() {
        if !in_goal(goal, entries.at(i)) {
            return false;
        }
    }
    true
}
