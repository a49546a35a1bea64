// Lists of literal sets in two arrays of masks, for tables and for the clauses of pictures; candidates put there.
ghost use Rattle.std.specs.Prelude.{◌≡◌, ◌≤◌, ◌<◌, [], ◌∷◌, ◌++◌, length};
ghost use Rattle.std.specs.Prelude as lists;
ghost use Rattle.sheet.specs.Literals as L;
ghost use Rattle.sheet.specs.Lists.{keep};
ghost use Rattle.table.specs.Fates.{left, fate_of};
ghost use Rattle.table.specs.inner.Slots.{list_after};
ghost use Rattle.table.specs.inner.Puts.{Puts};

use crate::Table;
use crate::entries::Entries;
use sheet::limits::ENTRIES;
use sheet::masks::{consistent, within};
use sheet::{Fault, Literals};
use std::marker::Model;

// A list of at most N literal sets: slot i of both arrays is one set, and slots after the list are zero. A contract sees the list. Two
// arrays, as document 01 has a table and the clauses of a picture.
#[derive(Drop)]
pub struct Slots<const N: usize> {
    count: usize,
    trues: [u32; N],
    falses: [u32; N],
}

impl<const N: usize> Model for Slots<N> {
    ghost use Rattle.std.specs.Prelude.{List, ◌≤◌};
    ghost use Rattle.sheet.specs.declared.Literals.{Literals};
    ghost use Rattle.table.specs.Entries.{entries_of};
    ghost use Rattle.table.specs.inner.Slots.{Held};

    ghost Value = { List Literals };

    ghost view = { λ s. entries_of s.count s.trues s.falses };

    ghost invariant = { λ s. Held N s.count s.trues s.falses × (N ≤ 4096) };
}

// What became of a candidate.
#[derive(Clone, Copy, Drop)]
pub(crate) enum Fate {
    Dropped,
    Added { removed: usize, count: usize },
    Full,
}

// There is no room for a candidate.
#[derive(Clone, Copy, Drop)]
pub struct Full;

// 21: a table or a picture is full.
impl From<Full> for Fault {
    ghost use Rattle.std.specs.Prelude.{◌≡◌};

    ghost from_gives = { λ _ f. f ≡ record { number = 21; position = 0 } };

    fn from(_full: Full) -> Fault {
        Fault {
            number: 21,
            position: 0,
        }
    }
}

// A list as the table that the calls give: unused slots are zero.
impl From<Slots<ENTRIES>> for Table {
    ghost use Rattle.std.specs.Prelude.{◌≡◌};
    ghost use Rattle.table.specs.Entries.{table_of};

    ghost from_gives = { λ s t. t ≡ table_of s };

    fn from(slots: Slots<ENTRIES>) -> Table {
        let Slots {
            count,
            trues,
            falses,
        } = slots;
        Table {
            count,
            trues,
            falses,
        }
    }
}

impl<const N: usize> Slots<N> {
    // No set.
    pub fn new() -> Self
        requires { N ≤ 4096 }
        ensures { result ≡ [] }
    {
        Slots {
            count: 0,
            trues: [0; N],
            falses: [0; N],
        }
    }

    // The sets, lent.
    pub fn entries(&self) -> Entries<'_>
        ensures { result ≡ self.now }
    {
        Entries::of(&self.trues, &self.falses, self.count)
    }

    // How many there are.
    pub fn len(&self) -> usize
        ensures count { result ≡ length self.now }
        ensures most { result ≤ N }
    {
        self.count
    }

    // One set more. The count is read once: after each store of a mask the compiler would read it again.
    pub fn push(&mut self, set: Literals)
        requires { length self.old < N }
        ensures { self.new ≡ self.old ++ set ∷ [] }
    {
        let at = self.count;
        self.trues[at] = set.trues;
        self.falses[at] = set.falses;
        self.count = at + 1;
    }

    // Another set in place i.
    pub(crate) fn set(&mut self, i: usize, set: Literals)
        requires { i < length self.old }
        ensures { self.new ≡ lists.set self.old i set }
    {
        let trues = &mut self.trues;
        trues[i] = set.trues;
        let falses = &mut self.falses;
        falses[i] = set.falses;
    }

    // The sets that contain the candidate go; the others move up in order.
    pub(crate) fn remove(&mut self, candidate: Literals)
        ensures { self.new ≡ left self.old candidate }
    {
        if !self.entries().some_above(candidate) {
            return;
        }
        let first = self.entries().first_above(candidate);
        let count = self.count;
        // Where the next set that stays goes: it falls behind i with each one that goes.
        let mut filled = first;
        for i in first..count {
            let set = Literals {
                trues: self.trues[i],
                falses: self.falses[i],
            };
            self.trues[i] = 0;
            self.falses[i] = 0;
            if !within(candidate, set) {
                self.trues[filled] = set.trues;
                self.falses[filled] = set.falses;
                filled += 1;
            }
        }
        self.count = filled;
    }

    // Puts a candidate. A full list is left as it was.
    pub(crate) fn put(&mut self, candidate: Literals) -> Fate
        ensures value { result ≡ fate_of N self.old candidate }
        ensures list { self.new ≡ list_after N self.old candidate }
    {
        if self.entries().last_within(candidate).is_some() {
            return Fate::Dropped;
        }
        let before = self.len();
        self.remove(candidate);
        let remaining = self.len();
        if remaining == N {
            return Fate::Full;
        }
        self.push(candidate);
        Fate::Added {
            removed: before - remaining,
            count: remaining + 1,
        }
    }

    // Puts a candidate, if there is room.
    pub(crate) fn offer(&mut self, candidate: Literals) -> Result<(), Full>
        ensures { Puts N (candidate ∷ []) self.old result self.new }
    {
        match self.put(candidate) {
            Fate::Full => Err(Full),
            _ => Ok(()),
        }
    }

    // The same, with the newest set tested before the others: where pieces of one set are put one after the other, it most often lies in
    // the next of them. Small, so that the compiler puts it in line.
    pub(crate) fn offer_by_newest(&mut self, candidate: Literals) -> Result<(), Full>
        ensures { Puts N (candidate ∷ []) self.old result self.new }
    {
        let count = self.len();
        if 0 < count {
            if within(self.entries().at(count - 1), candidate) {
                return Ok(());
            }
        }
        self.offer(candidate)
    }

    // Puts a candidate if it is consistent.
    pub(crate) fn admit(&mut self, candidate: Literals) -> Result<(), Full>
        ensures { Puts N (keep L.consistent (candidate ∷ [])) self.old result self.new }
    {
        if consistent(candidate) {
            return self.offer(candidate);
        }
        Ok(())
    }
}
