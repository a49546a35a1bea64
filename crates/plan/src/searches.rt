// The search for a plan: shorter plans first, then in ascending order of moves, depth first, each beginning run once.
ghost use Rattle.std.specs.Prelude.{◌≡◌, ◌∷◌, ◌+◌, ◌-◌, ◌≤◌, ◌<◌, replicate};
ghost use Rattle.sheet.specs.inner.Decoded.{problem_in, Filled};
ghost use Rattle.table.specs.Start.{start_table};
ghost use Rattle.plan.specs.Search.{full_at, nothing};
ghost use Rattle.plan.specs.Calls.{refused_search, answered, searched};
ghost use Rattle.plan.specs.inner.Movable.{Movable};
ghost use Rattle.plan.specs.inner.Searches as W;
ghost use Rattle.plan.specs.inner.Memory.{Remembers, Underway, MoveUnderway};
ghost use Rattle.sheet.specs.Limits.{most_entries};
ghost use Rattle.sheet.specs.inner.Widths.{most_moves};

use crate::goals::all_in_goal;
use crate::memory::{forget, remember, remembered};
use crate::{Kind, SearchAnswer};
use sheet::Sheet;
use sheet::packed::{GOAL, MOVES, Sets};
use table::entries::Entries;
use table::slots::Slots;
use table::starts::first_into;
use table::steps::step_at;

// Where the search stands: how many moves there are to choose from, how many are taken, how many are left.
#[derive(Clone, Copy, Drop)]
pub struct Depth {
    pub moves: usize,
    pub at: usize,
    pub left: usize,
}

// No plan.
#[tactic(auto, unfolding(crate::specs::Calls::answered, sheet::specs::Lists::pad))]
pub(crate) fn none() -> SearchAnswer
    ensures { result ≡ answered nothing }
{
    SearchAnswer {
        kind: Kind::Nothing,
        plan: [0u8; 8],
        length: 0,
    }
}

// A refusal.
#[tactic(auto, unfolding(crate::specs::Calls::refused_search, sheet::specs::Lists::pad))]
pub(crate) fn refuse_search(number: u8, position: usize) -> SearchAnswer
    ensures { result ≡ refused_search number position }
{
    SearchAnswer {
        kind: Kind::Refused(number, position),
        plan: [0u8; 8],
        length: 0,
    }
}

// Full at a move: the first of the plans with `left` moves more has move 0 for each.
#[tactic(auto, using(crate::proofs::laws::searches::SearchReturns::full_here))]
pub(crate) fn full(at: usize, left: usize, index: usize) -> SearchAnswer
    requires { (at + left < 8) × (index < most_moves) }
    ensures { result ≡ W.answered_at at (full_at (index ∷ replicate left 0) (at + 1)) }
{
    let next = at + 1;
    let mut plan = [0u8; 8];
    plan[at] = index as u8;
    SearchAnswer {
        kind: Kind::Full(next),
        plan,
        length: next + left,
    }
}

// Some plan ends the search. (A function, since the contracts of the search say it by `W.is_end`.)
pub(crate) fn is_end(a: SearchAnswer) -> bool
    ensures { result ≡ W.is_end a.kind }
{
    !matches!(a.kind, Kind::Nothing)
}

// The plans with the moves taken so far and then this move. No shorter plan has an answer, so a move that leaves the table as it was is
// not followed.
#[cycle(try_move_try_plans)]
fn try_move(
    packed: &[u32],
    depth: Depth,
    index: usize,
    entries: &Entries,
    memory: &mut [u32],
) -> SearchAnswer
    requires { MoveUnderway packed.now depth index entries.now memory.old }
    ensures answers { result ≡ W.move_tried packed.now depth.moves entries.now depth.at (depth.left - 1) index }
    ensures keeps { Remembers packed.now depth.moves memory.new }
{
    let at = depth.at;
    let left = depth.left - 1;
    let mut to = Slots::new();
    match step_at(packed, index, entries, &mut to) {
        Ok(()) => {
            let stepped = to.entries();
            if stepped.same(entries) {
                return none();
            }
            let next = Depth {
                at: at + 1,
                left,
                ..depth
            };
            let mut r = try_plans(packed, next, &stepped, memory);
            if is_end(r) {
                r.plan[at] = index as u8;
            }
            r
        }
        Err(fault) => {
            if fault.number == 21 {
                return full(at, left, index);
            }
            none()
        }
    }
}

// The plans with the moves taken so far, which led to the table, in ascending order of those that are left.
#[cycle(try_move_try_plans)]
fn try_plans(packed: &[u32], depth: Depth, entries: &Entries, memory: &mut [u32]) -> SearchAnswer
    requires { Underway packed.now depth entries.now memory.old }
    ensures answers { result ≡ W.plans_tried packed.now depth.moves entries.now depth.at depth.left }
    ensures keeps { Remembers packed.now depth.moves memory.new }
{
    let left = depth.left;
    if left == 0 {
        if all_in_goal(&Sets::of(&packed[GOAL..MOVES]), entries) {
            return SearchAnswer {
                kind: Kind::Reached,
                plan: [0u8; 8],
                length: depth.at,
            };
        }
        return none();
    }
    if remembered(memory, entries, left) {
        return none();
    }
    remember(memory, entries, left);
    for index in 0..depth.moves {
        let r = try_move(packed, depth, index, entries, memory);
        if is_end(r) {
            return r;
        }
    }
    remember(memory, entries, left + 1);
    none()
}

// Plans of at most `limit` moves, shorter first.
pub(crate) fn lengths(
    packed: &[u32],
    moves: usize,
    entries: &Entries,
    limit: usize,
    memory: &mut [u32],
) -> SearchAnswer
    requires movable { Movable packed.now moves entries.now }
    requires limit_bound { limit ≤ 8 }
    ensures { result ≡ W.searched_by packed.now moves entries.now limit }
{
    forget(memory);
    for length in 0..=limit {
        let depth = Depth {
            moves,
            at: 0,
            left: length,
        };
        let r = try_plans(packed, depth, entries, memory);
        if is_end(r) {
            return r;
        }
    }
    none()
}

// The search on a sheet that was read: 20 or 21 of the start, then the plans.
pub(crate) fn search_sheet(
    sheet: Sheet,
    packed: &[u32],
    limit: usize,
    memory: &mut [u32],
) -> SearchAnswer
    requires filled { Filled sheet packed.now }
    requires limit_bound { limit ≤ 8 }
    ensures { result ≡ searched (problem_in sheet packed.now) limit (start_table most_entries (problem_in sheet packed.now)) }
{
    let mut first = Slots::new();
    match first_into(sheet, packed, &mut first) {
        Ok(()) => lengths(packed, sheet.moves, &first.entries(), limit, memory),
        Err(fault) => refuse_search(fault.number, 0),
    }
}
