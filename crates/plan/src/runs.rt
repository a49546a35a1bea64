// The run of a sheet's plan: from place to place, the numbers of a row for each, and the goal test at the end.
ghost use Rattle.std.specs.Prelude.{◌≡◌, [], map, ◌≤◌, ◌<◌, eqb, length};
ghost use Rattle.sheet.specs.Lists.{all_of};
ghost use Rattle.sheet.specs.inner.Decoded.{plan_in, problem_in, Filled};
ghost use Rattle.sheet.specs.inner.Packed.{goal_in, moves_in, sets_in, action_of};
ghost use Rattle.sheet.specs.Format.{sheet_of};
ghost use Rattle.table.specs.Start.{start_table};
ghost use Rattle.table.specs.Step.{step_table};
ghost use Rattle.table.specs.inner.Outcomes.{Came};
ghost use Rattle.table.specs.inner.Steps.{MoveFits};
ghost use Rattle.plan.specs.Run as R;
ghost use Rattle.plan.specs.Calls.{verdict_of};
ghost use Rattle.plan.specs.inner.Course as C;
ghost use Rattle.plan.specs.inner.Movable.{Runnable};
ghost use Rattle.sheet.specs.Limits.{most_entries, most_places};

use crate::goals::all_in_goal;
use crate::{Counts, Course, RunAnswer, Verdict};
use sheet::limits::{ENTRIES, PLACES};
use sheet::packed::{GOAL, LENGTH, MOVES, Sets};
use sheet::{Fault, Plan, Sheet};
use table::Table;
use table::entries::Entries;
use table::picture_clauses::clause_count;
use table::slots::Slots;
use table::starts::first_into;
use table::steps::step_at;

// One row more: the entries of a table and the clauses of its picture.
#[tactic(auto, unfolding(crate::specs::inner::Course::noted))]
pub(crate) fn note(counts: &mut Counts, entries: &Entries)
    requires room { counts.old.count < most_places }
    requires some { 1 ≤ length entries.now }
    ensures { counts.new ≡ C.noted counts.old entries.now }
{
    let at = counts.count;
    counts.entries[at] = entries.len();
    counts.clauses[at] = clause_count(entries);
    counts.count = at + 1;
}

// What a refused step means for a run: 21 is full, the other numbers stop it.
#[tactic(auto, unfolding(crate::specs::Calls::verdict_of))]
pub(crate) fn halt(place: usize, number: u8) -> Verdict
    ensures { result ≡ verdict_of (R.halted_by (eqb number 21) place number) }
{
    if number == 21 {
        return Verdict::Full(place);
    }
    Verdict::Stopped(place, number)
}

// The verdict after the last move: reached if every entry is in the goal, otherwise short.
#[tactic(auto, unfolding(crate::specs::Calls::verdict_of))]
pub(crate) fn end(goal: &Sets, entries: &Entries) -> Verdict
    ensures { result ≡ verdict_of (R.ended_in (all_of (R.in_goal goal.now) entries.now)) }
{
    if all_in_goal(goal, entries) {
        return Verdict::Reached;
    }
    Verdict::Short
}

// The step of a table by a move, in its place. Refused, the table is left as it was.
pub(crate) fn step_here(
    packed: &[u32],
    index: usize,
    table: &mut Slots<ENTRIES>,
) -> Result<(), Fault>
    requires { MoveFits packed.now index table.old }
    ensures came { Came result table.new (step_table most_entries (action_of (moves_in packed.now) index) table.old) }
    ensures kept { table.new ≡ R.table_or (step_table most_entries (action_of (moves_in packed.now) index) table.old) table.old (λ u. u) }
{
    let mut to = Slots::new();
    step_at(packed, index, &table.entries(), &mut to)?;
    *table = to;
    Ok(())
}

// A plan from a table: the last table in its place, and the numbers of the rows.
pub(crate) fn run_from(
    plan: Plan,
    packed: &[u32],
    table: &mut Slots<ENTRIES>,
    counts: &mut Counts,
) -> Verdict
    requires runnable { Runnable plan packed.now table.old }
    requires no_row { counts.old ≡ C.counts_of [] }
    ensures { C.course_in result table.new counts.new ≡ C.course_from (sets_in (goal_in packed.now)) [] 0 (map (action_of (moves_in packed.now)) (plan_in plan)) table.old }
{
    let numbers = &plan.numbers[..plan.count];
    for number in numbers {
        note(counts, &table.entries());
        if let Err(fault) = step_here(packed, *number as usize, table) {
            return halt(counts.count, fault.number);
        }
    }
    note(counts, &table.entries());
    end(&Sets::of(&packed[GOAL..MOVES]), &table.entries())
}

// The run of a sheet that was read: 20 or 21 of its start, otherwise its plan from the first table.
pub(crate) fn run_sheet(
    sheet: Sheet,
    packed: &[u32],
    table: &mut Slots<ENTRIES>,
    counts: &mut Counts,
) -> Verdict
    requires filled { Filled sheet packed.now }
    requires no_entry { table.old ≡ [] }
    requires no_row { counts.old ≡ C.counts_of [] }
    ensures { C.course_in result table.new counts.new ≡ C.planned_course (problem_in sheet packed.now) (plan_in sheet.plan) (start_table most_entries (problem_in sheet packed.now)) }
{
    match first_into(sheet, packed, table) {
        Ok(()) => run_from(sheet.plan, packed, table, counts),
        Err(fault) => {
            *table = Slots::new();
            Verdict::Refused(fault.number, 0)
        }
    }
}

// The run of a sheet with so many rows lent: a fault of the sheet, 23 for fewer than 65 rows, then the run.
pub fn course_into(
    bytes: &[u8],
    lent: usize,
    table: &mut Slots<ENTRIES>,
    counts: &mut Counts,
) -> Verdict
    requires no_entry { table.old ≡ [] }
    requires no_row { counts.old ≡ C.counts_of [] }
    ensures { C.course_in result table.new counts.new ≡ C.course_of (sheet_of bytes.now) lent }
{
    let mut packed = [0u32; LENGTH];
    match sheet::decode(bytes, &mut packed) {
        Err(fault) => Verdict::Refused(fault.number, fault.position),
        Ok(sheet) => {
            if lent < PLACES {
                return Verdict::Refused(23, 0);
            }
            // A reference to the whole array: its type has the length.
            let packed = &packed;
            run_sheet(sheet, packed, table, counts)
        }
    }
}

// The run of a sheet with so many rows lent, by value.
pub fn course(bytes: &[u8], lent: usize) -> Course
    ensures { result ≡ C.course_of (sheet_of bytes.now) lent }
{
    let mut table = Slots::new();
    let mut counts = Counts::new();
    let verdict = course_into(bytes, lent, &mut table, &mut counts);
    Course {
        ran: RunAnswer {
            verdict,
            table: table.into(),
        },
        counts,
    }
}
