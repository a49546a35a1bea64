// Values laid out as numbers: answers, tables, rows and plans.
ghost use Rattle.std.specs.Prelude.{◌≡◌, [], ◌++◌, ◌*◌, ◌≤◌, length, drop};
ghost use Rattle.sheet.specs.Lists.{collect};
ghost use Rattle.sheet.specs.Format.{sheet_of};
ghost use Rattle.table.specs.Calls.{step_of};
ghost use Rattle.table.specs.Entries.{table_of};
ghost use Rattle.table.specs.inner.Steps.{step_answer};
ghost use Rattle.table.specs.inner.Starts.{start_answer};
ghost use Rattle.plan.specs.inner.Rows.{rows_in};
ghost use Rattle.unit.specs.Numbers.{answer_reply, kind_reply, info_of, table_in, table_out, row_numbers};
ghost use Rattle.sheet.specs.Limits.{most_places, table_numbers};

use crate::Reply;
use plan::rows::row_at;
use plan::{Counts, Kind, SearchAnswer, Verdict};
use sheet::limits::ENTRIES;
use sheet::{Answer, Fault};
use table::slots::Slots;
use table::{Table, step_lent};

// The numbers of a table, and where its masks begin.
pub(crate) const TABLE_NUMBERS: usize = 257;

const TRUES: usize = 1;

const FALSES: usize = 129;

// The numbers of an accepted call that has none.
const ACCEPTED: Reply = Reply {
    answer: 0,
    position: 0,
    kind: 0,
    place: 0,
    detail: 0,
};

// An answer in numbers; `extra` is the second number of info if it is accepted. (No From: it takes two values.)
pub(crate) fn answer_reply(answer: Answer, extra: u64) -> Reply
    ensures { result ≡ answer_reply answer extra }
{
    match answer {
        Ok(()) => Reply {
            answer: 0,
            position: 0,
            kind: extra,
            place: 0,
            detail: 0,
        },
        Err(fault) => Reply {
            answer: fault.number,
            position: fault.position as u64,
            kind: 0,
            place: 0,
            detail: 0,
        },
    }
}

// A verdict in numbers.
impl From<Verdict> for Reply {
    ghost use Rattle.std.specs.Prelude.{◌≡◌};
    ghost use Rattle.unit.specs.Numbers.{verdict_reply};

    ghost from_gives = { λ v r. r ≡ verdict_reply v };

    #[tactic(auto, unfolding(sheet::specs::Calls::number_of, sheet::specs::Calls::position_of, plan::specs::Cases::verdict_answer, plan::specs::Cases::verdict_place, plan::specs::Cases::verdict_number, crate::specs::Numbers::verdict_kind))]
    fn from(verdict: Verdict) -> Reply {
        match verdict {
            Verdict::Reached => ACCEPTED,
            Verdict::Short => Reply {
                kind: 1,
                ..ACCEPTED
            },
            Verdict::Stopped(place, number) => Reply {
                kind: 2,
                place: place as u64,
                detail: number as u64,
                ..ACCEPTED
            },
            Verdict::Full(place) => Reply {
                kind: 3,
                place: place as u64,
                ..ACCEPTED
            },
            Verdict::Refused(number, position) => Reply {
                answer: number,
                position: position as u64,
                ..ACCEPTED
            },
        }
    }
}

// The end of a search in numbers, with the size of its plan.
impl From<SearchAnswer> for Reply {
    ghost use Rattle.std.specs.Prelude.{◌≡◌};
    ghost use Rattle.unit.specs.Numbers.{kind_reply};

    ghost from_gives = { λ s r. r ≡ kind_reply s.kind s.length };

    #[tactic(auto, unfolding(sheet::specs::Calls::number_of, sheet::specs::Calls::position_of, plan::specs::Cases::kind_answer, plan::specs::Cases::kind_place, crate::specs::Numbers::if_accepted, crate::specs::Numbers::search_kind))]
    fn from(searched: SearchAnswer) -> Reply {
        let size = searched.length as u64;
        match searched.kind {
            Kind::Reached => Reply {
                detail: size,
                ..ACCEPTED
            },
            Kind::Full(place) => Reply {
                kind: 1,
                place: place as u64,
                detail: size,
                ..ACCEPTED
            },
            Kind::Nothing => Reply {
                kind: 2,
                detail: size,
                ..ACCEPTED
            },
            Kind::Refused(number, position) => Reply {
                answer: number,
                position: position as u64,
                ..ACCEPTED
            },
        }
    }
}

// The four numbers of info. The others are kept.
#[tactic(auto, unfolding(crate::specs::Numbers::info_of))]
pub(crate) fn write_info(info: &mut [u64], reply: Reply)
    requires { 4 ≤ length info.old }
    ensures { info.new ≡ info_of reply info.old }
{
    info[..4].copy_from_slice(&[reply.position, reply.kind, reply.place, reply.detail]);
}

// The end of a search: its plan to the front of eight bytes or more, and the numbers of info. The result is the answer.
pub(crate) fn write_search(plan: &mut [u8], info: &mut [u64], searched: SearchAnswer) -> u8
    requires { (8 ≤ length plan.old) × (4 ≤ length info.old) }
    ensures value { result ≡ (kind_reply searched.kind searched.length).answer }
    ensures plan_after { plan.new ≡ searched.plan ++ drop 8 plan.old }
    ensures info_after { info.new ≡ info_of (kind_reply searched.kind searched.length) info.old }
{
    let reply = Reply::from(searched);
    plan[..8].copy_from_slice(&searched.plan);
    write_info(info, reply);
    reply.answer
}

// The table in 257 numbers: the count, the masks of true propositions, those of false ones.
pub(crate) fn table_in(numbers: &[u32]) -> Table
    requires { table_numbers ≤ length numbers.now }
    ensures { result ≡ table_in numbers.now }
{
    let mut trues = [0u32; ENTRIES];
    let mut falses = [0u32; ENTRIES];
    trues.copy_from_slice(&numbers[TRUES..FALSES]);
    falses.copy_from_slice(&numbers[FALSES..TABLE_NUMBERS]);
    Table {
        count: numbers[0] as usize,
        trues,
        falses,
    }
}

// A list as the 257 numbers of its table. The others are kept.
pub(crate) fn write_table(numbers: &mut [u32], list: Slots<ENTRIES>)
    requires { table_numbers ≤ length numbers.old }
    ensures { numbers.new ≡ table_out (table_of list) numbers.old }
{
    numbers[0] = list.len() as u32;
    let table = Table::from(list);
    numbers[TRUES..FALSES].copy_from_slice(&table.trues);
    numbers[FALSES..TABLE_NUMBERS].copy_from_slice(&table.falses);
}

// What a start gave, written as the 257 numbers of a table; zeros for a refusal.
pub(crate) fn write_start(numbers: &mut [u32], started: Result<(), Fault>, list: Slots<ENTRIES>)
    requires { table_numbers ≤ length numbers.old }
    ensures { numbers.new ≡ table_out (start_answer started list).table numbers.old }
{
    match started {
        Ok(()) => write_table(numbers, list),
        Err(_) => write_table(numbers, Slots::new()),
    }
}

// The step of a table in 257 numbers, into an empty list.
pub(crate) fn step_numbers(
    sheet: &[u8],
    numbers: &[u32],
    index: usize,
    to: &mut Slots<ENTRIES>,
) -> Result<(), Fault>
    requires room { table_numbers ≤ length numbers.now }
    requires empty { to.old ≡ [] }
    ensures { step_answer (table_in numbers.now) result to.new ≡ step_of (sheet_of sheet.now) (table_in numbers.now) index }
{
    step_lent(
        sheet,
        index,
        &numbers[TRUES..FALSES],
        &numbers[FALSES..TABLE_NUMBERS],
        numbers[0] as usize,
        to,
    )
}

// What a step gave, written over the 257 numbers of its table; a refusal leaves them.
pub(crate) fn write_step(numbers: &mut [u32], stepped: Result<(), Fault>, list: Slots<ENTRIES>)
    requires { table_numbers ≤ length numbers.old }
    ensures { numbers.new ≡ table_out (step_answer (table_in numbers.old) stepped list).table numbers.old }
{
    match stepped {
        Ok(()) => write_table(numbers, list),
        Err(_) => {}
    }
}

// The rows of a run, three numbers each: the place, its entries and its clauses. The others are kept.
pub(crate) fn write_row_numbers(rows: &mut [u64], counts: &Counts)
    requires { (counts.now.count ≤ most_places) × (3 * counts.now.count ≤ length rows.old) }
    ensures { rows.new ≡ collect row_numbers (rows_in counts.now) ++ drop (3 * counts.now.count) rows.old }
{
    for i in 0..counts.count {
        let at = 3 * i;
        let row = row_at(counts, i);
        rows[at] = row.place as u64;
        rows[at + 1] = row.entries as u64;
        rows[at + 2] = row.clauses as u64;
    }
}
