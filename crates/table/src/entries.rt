// The entries of a table, or clauses, lent as two slices of masks side by side: what they are tested for.
ghost use Rattle.std.specs.Prelude.{◌≡◌, ◌≤◌, ◌<◌, ◌-◌, true, false, length, get_or, take, drop, Some};
ghost use Rattle.sheet.specs.Literals as L;
ghost use Rattle.sheet.specs.Lists.{any_of};
ghost use Rattle.table.specs.Entries.{entries_of};
ghost use Rattle.table.specs.Fates.{last_within};
ghost use Rattle.table.specs.inner.Slots.{Room};

use sheet::Literals;
use sheet::masks::within;
use std::marker::Model;

// Literal sets, lent: slot i of both slices is one set. A contract sees the list of the sets.
#[derive(Drop)]
pub struct Entries<'a> {
    trues: &'a [u32],
    falses: &'a [u32],
}

impl<'a> Model for Entries<'a> {
    ghost use Rattle.std.specs.Prelude.{◌≡◌, List, length};
    ghost use Rattle.sheet.specs.declared.Literals.{Literals};
    ghost use Rattle.table.specs.Entries.{pairs};

    ghost Value = { List Literals };

    ghost view = { λ e. pairs e.trues.now e.falses.now };

    ghost invariant = { λ e. length e.trues.now ≡ length e.falses.now };
}

impl<'a> Entries<'a> {
    // The sets in the first slots of two slices, so many.
    pub fn of(trues: &'a [u32], falses: &'a [u32], count: usize) -> Entries<'a>
        requires { Room count trues.now falses.now }
        ensures { result ≡ entries_of count trues.now falses.now }
    {
        Entries {
            trues: &trues[..count],
            falses: &falses[..count],
        }
    }

    // How many there are.
    pub fn len(&self) -> usize
        ensures { result ≡ length self.now }
    {
        self.trues.len()
    }

    // The set in slot i.
    pub fn at(&self, i: usize) -> Literals
        requires { i < length self.now }
        ensures { result ≡ get_or self.now i L.no_literal }
    {
        let trues = self.trues;
        let falses = self.falses;
        Literals {
            trues: trues[i],
            falses: falses[i],
        }
    }

    // Said true only of the same sets, in the same order. (No PartialEq: a lent view whose model forgets where it lies can derive none.)
    pub fn same(&self, other: &Entries) -> bool
        ensures { result ≡ true → self.now ≡ other.now }
    {
        self.trues == other.trues && self.falses == other.falses
    }

    // Some of the four sets before place `end` lies in the candidate. There is no branch, so that the compiler compares the four at once.
    fn some_of_four(&self, end: usize, candidate: Literals) -> bool
        requires four { 4 ≤ end }
        requires within { end ≤ length self.now }
        ensures { result ≡ any_of (λ e. L.within e candidate) (take 4 (drop (end - 4) self.now)) }
    {
        let a = within(self.at(end - 4), candidate);
        let b = within(self.at(end - 3), candidate);
        let c = within(self.at(end - 2), candidate);
        let d = within(self.at(end - 1), candidate);
        a | b | c | d
    }

    // The place of the last of the four sets before place `end` that lies in the candidate: one does. There is no loop, so that the compiler
    // drops it where the place is not used.
    fn last_of_four(&self, end: usize, candidate: Literals) -> usize
        requires four { 4 ≤ end }
        requires within { end ≤ length self.now }
        requires some { any_of (λ e. L.within e candidate) (take 4 (drop (end - 4) self.now)) ≡ true }
        ensures { Some result ≡ last_within (take end self.now) candidate }
    {
        if within(self.at(end - 1), candidate) {
            return end - 1;
        }
        if within(self.at(end - 2), candidate) {
            return end - 2;
        }
        if within(self.at(end - 3), candidate) {
            return end - 3;
        }
        end - 4
    }

    // The place of the last of the first sets, so many, whose literals all lie in the candidate, looked for one by one: those that blocks of
    // four leave.
    #[tactic(auto, using(crate::proofs::laws::slots::LastWithin::last_down, crate::proofs::laws::slots::LastWithin::last_nothing))]
    fn last_singly(&self, count: usize, candidate: Literals) -> Option<usize>
        requires { count ≤ length self.now }
        ensures { result ≡ last_within (take count self.now) candidate }
    {
        for i in (0..count).rev() {
            if within(self.at(i), candidate) {
                return Some(i);
            }
        }
        None
    }

    // The place of the last set whose literals all lie in the candidate, if there is one: by blocks of four, and then singly. In line, so that
    // the blocks are read where the two slices are known.
    #[inline(always)]
    pub(crate) fn last_within(&self, candidate: Literals) -> Option<usize>
        ensures { result ≡ last_within self.now candidate }
    {
        let rest = self.len() % 4;
        for block in (0..self.len() / 4).rev() {
            let end = rest + 4 * block + 4;
            if self.some_of_four(end, candidate) {
                return Some(self.last_of_four(end, candidate));
            }
        }
        self.last_singly(rest, candidate)
    }

    // Some set lies in this one. Unlike `last_within` it has no way out before its end: it is for short lists.
    #[tactic(auto, using(crate::proofs::laws::arrays::ListTests::any_at, crate::proofs::laws::arrays::ListTests::any_done))]
    pub(crate) fn some_within(&self, set: Literals) -> bool
        ensures { result ≡ any_of (λ e. L.within e set) self.now }
    {
        let mut some = false;
        for i in 0..self.len() {
            if within(self.at(i), set) {
                some = true;
            }
        }
        some
    }

    // Some set contains the candidate. The scan has no way out before its end, so that the compiler can compare several at a time.
    #[tactic(auto, using(crate::proofs::laws::arrays::ListTests::any_at, crate::proofs::laws::arrays::ListTests::any_done))]
    pub(crate) fn some_above(&self, candidate: Literals) -> bool
        ensures { result ≡ any_of (λ e. L.within candidate e) self.now }
    {
        let mut found = false;
        for i in 0..self.len() {
            if within(candidate, self.at(i)) {
                found = true;
            }
        }
        found
    }

    // The first set that contains the candidate, their number if none does, as `remove` begins there.
    // The contract says what `remove` needs: none before it does.
    #[tactic(auto, using(crate::proofs::laws::arrays::ListLoops::any_more))]
    pub(crate) fn first_above(&self, candidate: Literals) -> usize
        ensures bound { result ≤ length self.now }
        ensures none_before { any_of (λ e. L.within candidate e) (take result self.now) ≡ false }
    {
        for i in 0..self.len() {
            if within(candidate, self.at(i)) {
                return i;
            }
        }
        self.len()
    }
}
