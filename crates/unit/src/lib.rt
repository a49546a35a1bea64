// The calls for C: sheets, tables, rows and plans as numbers in slices that the caller lends.
#![tactic(auto)]

ghost use Rattle.std.specs.Prelude.{◌≡◌, true, cond, ◌++◌, ltb, length, drop};
ghost use Rattle.sheet.specs.Format.{sheet_of};
ghost use Rattle.table.specs.Calls.{start_of, step_of};
ghost use Rattle.table.specs.PictureCalls.{buffer_of};
ghost use Rattle.plan.specs.Calls.{search_of};
ghost use Rattle.unit.specs.Numbers.{too_short, info_of, table_in, table_out};
ghost use Rattle.unit.specs.Calls as U;
ghost use Rattle.sheet.specs.Limits.{table_numbers};

use plan::Counts;
use table::slots::Slots;

mod numbers;

// What a call answers in numbers: the answer byte, and the four numbers of info. C gets numbers.
#[derive(Clone, Copy, Drop)]
pub struct Reply {
    pub answer: u8,
    pub position: u64,
    pub kind: u64,
    pub place: u64,
    pub detail: u64,
}

// Judges a sheet.
#[unsafe(no_mangle)]
pub extern "C" fn krepuskilo_judge(sheet: &[u8], info: &mut [u64]) -> u8
    ensures value { result ≡ cond (ltb (length info.old) 4) 255 (U.judge_reply sheet.now).answer }
    ensures info_after { info.new ≡ cond (ltb (length info.old) 4) info.old (info_of (U.judge_reply sheet.now) info.old) }
{
    if info.len() < 4 {
        return 255;
    }
    let reply = numbers::answer_reply(sheet::judge(sheet), 0);
    numbers::write_info(info, reply);
    reply.answer
}

// The first table of a sheet.
#[unsafe(no_mangle)]
pub extern "C" fn krepuskilo_start(sheet: &[u8], table: &mut [u32], info: &mut [u64]) -> u8
    ensures value { result ≡ cond (too_short table_numbers table.old info.old) 255 (U.start_reply sheet.now).answer }
    ensures table_after { table.new ≡ cond (too_short table_numbers table.old info.old) table.old (table_out (start_of (sheet_of sheet.now)).table table.old) }
    ensures info_after { info.new ≡ cond (too_short table_numbers table.old info.old) info.old (info_of (U.start_reply sheet.now) info.old) }
{
    if table.len() < numbers::TABLE_NUMBERS {
        return 255;
    }
    if info.len() < 4 {
        return 255;
    }
    let mut list = Slots::new();
    let started = table::start_lent(sheet, &mut list);
    numbers::write_start(table, started, list);
    let reply = numbers::answer_reply(started, 0);
    numbers::write_info(info, reply);
    reply.answer
}

// The picture of a table, written into the buffer.
#[unsafe(no_mangle)]
pub extern "C" fn krepuskilo_picture(
    sheet: &[u8],
    table: &[u32],
    buffer: &mut [u8],
    info: &mut [u64],
) -> u8
    ensures value { result ≡ cond (too_short table_numbers table.now info.old) 255 (U.picture_reply sheet.now table.now (length buffer.old)).answer }
    ensures buffer_after { buffer.new ≡ cond (too_short table_numbers table.now info.old) buffer.old (buffer_of (sheet_of sheet.now) (table_in table.now) buffer.old) }
    ensures info_after { info.new ≡ cond (too_short table_numbers table.now info.old) info.old (info_of (U.picture_reply sheet.now table.now (length buffer.old)) info.old) }
{
    if table.len() < numbers::TABLE_NUMBERS {
        return 255;
    }
    if info.len() < 4 {
        return 255;
    }
    let given = numbers::table_in(table);
    let pictured = table::picture(sheet, given, buffer);
    let answer = pictured.answer;
    let reply = numbers::answer_reply(answer, pictured.clauses as u64);
    numbers::write_info(info, reply);
    reply.answer
}

// The step of a table by the move of a number on the sheet.
#[unsafe(no_mangle)]
pub extern "C" fn krepuskilo_step(
    sheet: &[u8],
    table: &mut [u32],
    index: u64,
    info: &mut [u64],
) -> u8
    ensures value { result ≡ cond (too_short table_numbers table.old info.old) 255 (U.step_reply sheet.now table.old index).answer }
    ensures table_after { table.new ≡ cond (too_short table_numbers table.old info.old) table.old (table_out (step_of (sheet_of sheet.now) (table_in table.old) index).table table.old) }
    ensures info_after { info.new ≡ cond (too_short table_numbers table.old info.old) info.old (info_of (U.step_reply sheet.now table.old index) info.old) }
{
    if table.len() < numbers::TABLE_NUMBERS {
        return 255;
    }
    if info.len() < 4 {
        return 255;
    }
    let mut list = Slots::new();
    let stepped = numbers::step_numbers(sheet, table, index as usize, &mut list);
    numbers::write_step(table, stepped, list);
    let reply = numbers::answer_reply(stepped, 0);
    numbers::write_info(info, reply);
    reply.answer
}

// The first plan of at most `limit` moves that is reached or full.
#[unsafe(no_mangle)]
pub extern "C" fn krepuskilo_search(
    sheet: &[u8],
    limit: u64,
    plan: &mut [u8],
    info: &mut [u64],
) -> u8
    ensures value { result ≡ cond (too_short 8 plan.old info.old) 255 (U.search_reply sheet.now limit).answer }
    ensures plan_after { plan.new ≡ cond (too_short 8 plan.old info.old) plan.old ((search_of (sheet_of sheet.now) limit).plan ++ drop 8 plan.old) }
    ensures info_after { info.new ≡ cond (too_short 8 plan.old info.old) info.old (info_of (U.search_reply sheet.now limit) info.old) }
{
    if plan.len() < 8 {
        return 255;
    }
    if info.len() < 4 {
        return 255;
    }
    let searched = plan::search(sheet, limit as usize);
    numbers::write_search(plan, info, searched)
}

// The same with a memory, 258 numbers to a slot. What it holds at entry does not matter, nor how long it is; afterwards it holds anything,
// but where plan or info is too short it is as it was.
#[unsafe(no_mangle)]
pub extern "C" fn krepuskilo_search_with(
    sheet: &[u8],
    limit: u64,
    memory: &mut [u32],
    plan: &mut [u8],
    info: &mut [u64],
) -> u8
    ensures value { result ≡ cond (too_short 8 plan.old info.old) 255 (U.search_reply sheet.now limit).answer }
    ensures plan_after { plan.new ≡ cond (too_short 8 plan.old info.old) plan.old ((search_of (sheet_of sheet.now) limit).plan ++ drop 8 plan.old) }
    ensures info_after { info.new ≡ cond (too_short 8 plan.old info.old) info.old (info_of (U.search_reply sheet.now limit) info.old) }
    ensures memory_unchanged { too_short 8 plan.old info.old ≡ true → memory.new ≡ memory.old }
{
    if plan.len() < 8 {
        return 255;
    }
    if info.len() < 4 {
        return 255;
    }
    let searched = plan::search_with(sheet, limit as usize, memory);
    numbers::write_search(plan, info, searched)
}

// The run of a sheet's plan, its rows as three numbers each.
#[unsafe(no_mangle)]
pub extern "C" fn krepuskilo_run(
    sheet: &[u8],
    rows: &mut [u64],
    table: &mut [u32],
    info: &mut [u64],
) -> u8
    ensures value { result ≡ cond (too_short table_numbers table.old info.old) 255 (U.run_reply sheet.now rows.old).answer }
    ensures rows_after { rows.new ≡ cond (too_short table_numbers table.old info.old) rows.old (U.rows_out sheet.now rows.old) }
    ensures table_after { table.new ≡ cond (too_short table_numbers table.old info.old) table.old (table_out (U.run_table sheet.now rows.old) table.old) }
    ensures info_after { info.new ≡ cond (too_short table_numbers table.old info.old) info.old (info_of (U.run_reply sheet.now rows.old) info.old) }
{
    if table.len() < numbers::TABLE_NUMBERS {
        return 255;
    }
    if info.len() < 4 {
        return 255;
    }
    let mut last = Slots::new();
    let mut counts = Counts::new();
    let verdict = plan::runs::course_into(sheet, rows.len() / 3, &mut last, &mut counts);
    let reply = Reply::from(verdict);
    numbers::write_row_numbers(rows, &counts);
    numbers::write_table(table, last);
    numbers::write_info(info, reply);
    reply.answer
}
