// What the search remembers, in slots of 258 numbers that are lent: a mark, how many entries, 128 masks of true and 128 of false ones. A
// slot with mark m says that no plan of fewer than m moves from its table has an answer; mark 0 says nothing. Two slots are looked at for a
// table.
ghost use Rattle.std.specs.Prelude.{◌≡◌, true, ℕ, ◌+◌, ◌*◌, ◌≤◌, ◌<◌, length, List};
ghost use Rattle.sheet.specs.Limits.{most_entries};
ghost use Rattle.sheet.specs.inner.Packed.{item_at};
ghost use Rattle.sheet.specs.inner.Widths.{memory_slot};
ghost use Rattle.plan.specs.inner.Searches.{NoShorterFrom};
ghost use Rattle.plan.specs.inner.Memory.{mark_in, table_in, Recalls, Remembers};

use sheet::Literals;
use table::entries::Entries;

// The numbers of a slot, and where its masks begin.
const SLOT: usize = 258;

const TRUES: usize = 2;

const FALSES: usize = 130;

// One entry more in a digest.
pub(crate) fn stir(digest: usize, entry: Literals) -> usize {
    (digest % 4294967296 + entry.trues as usize + entry.falses as usize * 2) * 663608941 / 65536
}

// The slot that a table is looked for in first. Any number below `slots` would do.
pub(crate) fn place(entries: &Entries, slots: usize) -> usize
    requires { 1 ≤ slots }
    ensures { result < slots }
{
    let mut digest: usize = 0;
    for i in 0..entries.len() {
        digest = stir(digest, entries.at(i));
    }
    digest % slots
}

// The slot after slot j, the first after the last.
pub(crate) fn following(j: usize, slots: usize) -> usize
    requires { j < slots }
    ensures { result < slots }
{
    let next = j + 1;
    if next < slots {
        return next;
    }
    0
}

// Said true only if the slot has this table, and a mark above `left`.
#[tactic(auto, unfolding(crate::specs::inner::Memory::table_in))]
pub(crate) fn holds(slot: &[u32], entries: &Entries, left: usize) -> bool
    requires slot_len { length slot.now ≡ memory_slot }
    requires few { length entries.now ≤ most_entries }
    ensures { result ≡ true → (left < mark_in slot.now) × (table_in slot.now ≡ entries.now) }
{
    let count = entries.len();
    if slot[0] as usize <= left || slot[1] as usize != count {
        return false;
    }
    let stored = Entries::of(&slot[TRUES..FALSES], &slot[FALSES..SLOT], count);
    stored.same(entries)
}

// The table and the mark, written into the slot.
pub(crate) fn fill(slot: &mut [u32], entries: &Entries, mark: usize)
    requires slot_len { (length slot.old ≡ memory_slot) × (mark ≤ 9) }
    requires few { length entries.now ≤ most_entries }
    ensures { (length slot.new ≡ memory_slot) × (mark_in slot.new ≡ mark) × (table_in slot.new ≡ entries.now) }
{
    slot[0] = mark as u32;
    slot[1] = entries.len() as u32;
    for i in 0..entries.len() {
        let entry = entries.at(i);
        slot[TRUES + i] = entry.trues;
        slot[FALSES + i] = entry.falses;
    }
}

// One of two slots: that with the lesser mark.
pub(crate) fn lesser(memory: &[u32], j: usize, k: usize) -> usize
    requires { (j * memory_slot + memory_slot ≤ length memory.now) × (k * memory_slot + memory_slot ≤ length memory.now) }
    ensures { result * memory_slot + memory_slot ≤ length memory.now }
{
    if memory[k * SLOT] < memory[j * SLOT] {
        return k;
    }
    j
}

// Slot j.
#[tactic(auto, using(sheet::proofs::laws::reader::PackedParts::item_lent))]
pub(crate) fn slot_at(memory: &[u32], j: usize) -> &[u32]
    requires { j * memory_slot + memory_slot ≤ length memory.now }
    ensures slot_is { result.now ≡ item_at memory_slot memory.now j }
    ensures long { length result.now ≡ memory_slot }
{
    let at = j * SLOT;
    &memory[at..at + SLOT]
}

// Said true only if some slot has this table, with a mark above `left`.
pub(crate) fn remembered(memory: &[u32], entries: &Entries, left: usize) -> bool
    requires { length entries.now ≤ most_entries }
    ensures { result ≡ true → Recalls memory.now entries.now left }
{
    let slots = memory.len() / SLOT;
    if slots == 0 {
        return false;
    }
    let j = place(entries, slots);
    holds(slot_at(memory, j), entries, left)
        || holds(slot_at(memory, following(j, slots)), entries, left)
}

// The table with this mark takes the place of another, if there is a slot at all and the mark is of use. Whatever was known of the slots is
// known of them still.
pub(crate) fn remember(memory: &mut [u32], entries: &Entries, mark: usize)
    requires mark_bound { mark ≤ 9 }
    requires few { length entries.now ≤ most_entries }
    ensures { (packed : List ℕ) → (k : ℕ) → Remembers packed k memory.old → NoShorterFrom packed k 0 entries.now mark → Remembers packed k memory.new }
{
    let slots = memory.len() / SLOT;
    if mark < 2 || slots == 0 {
        return;
    }
    let j = place(entries, slots);
    let k = following(j, slots);
    let at = lesser(memory, j, k) * SLOT;
    fill(&mut memory[at..at + SLOT], entries, mark);
}

// Nothing is remembered, whatever stood there.
pub(crate) fn forget(memory: &mut [u32])
    ensures { (packed : List ℕ) → (k : ℕ) → Remembers packed k memory.new }
{
    for j in 0..memory.len() / SLOT {
        memory[j * SLOT] = 0;
    }
}
