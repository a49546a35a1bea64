// A sheet's clauses, goal and moves in one packed array (specs/Packed): where each section begins, and what stands there.
ghost use Rattle.std.specs.Prelude.{◌≡◌, ◌++◌, ◌≤◌, ◌<◌, ◌+◌, ◌*◌, length, take, drop, get_or};
ghost use Rattle.sheet.specs.Literals as L;
ghost use Rattle.sheet.specs.inner.Packed as R;

use crate::{Effect, Literals};
use std::marker::Model;

// The numbers of a clause, or of the goal: its count, and two masks to each of eight sets.
pub const SETS_WIDTH: usize = 17;

// The numbers of a move, two masks of its precondition, its count, its effects; where its effects begin.
pub const MOVE_WIDTH: usize = 35;

pub const EFFECTS: usize = 3;

// Where each section begins, and how long the packed array is: eight or-clauses, eight oneof-clauses, the goal, 32 moves.
pub const ORS: usize = 0;

pub const ONEOFS: usize = 136;

pub const GOAL: usize = 272;

pub const MOVES: usize = 289;

pub const LENGTH: usize = 1409;

// The set whose two masks stand from number i on.
pub fn set_from<'a>(item: &'a [u32], i: usize) -> Literals
    requires { i + 2 ≤ length item.now }
    ensures { result ≡ R.set_from item.now i }
{
    Literals {
        trues: item[i],
        falses: item[i + 1],
    }
}

// The four masks of an effect from `at` on. The others are kept.
pub(crate) fn write_effect(effects: &mut [u32], at: usize, e: Effect)
    requires { at + 4 ≤ length effects.old }
    ensures { effects.new ≡ take at effects.old ++ (R.masks_of e ++ drop (at + 4) effects.old) }
{
    effects[at..at + 4].copy_from_slice(&[
        e.condition.trues,
        e.condition.falses,
        e.result.trues,
        e.result.falses,
    ]);
}

// How many sets a clause, or the goal, has in its numbers.
pub fn count_of<'a>(item: &'a [u32]) -> usize
    requires { 1 ≤ length item.now }
    ensures { result ≡ get_or item.now 0 0 }
{
    item[0] as usize
}

// The set of number i there.
pub fn set_at<'a>(item: &'a [u32], i: usize) -> Literals
    requires { 2 * i + 3 ≤ length item.now }
    ensures { result ≡ R.set_from (drop 1 item.now) (2 * i) }
{
    set_from(item, 2 * i + 1)
}

// The effect of number i, four masks to an effect.
pub fn effect_at<'a>(effects: &'a [u32], i: usize) -> Effect
    requires { 4 * i + 4 ≤ length effects.now }
    ensures { result ≡ R.effect_at effects.now i }
{
    let at = 4 * i;
    Effect {
        condition: set_from(effects, at),
        result: set_from(effects, at + 2),
    }
}

// The sets of a clause, or of the goal, lent: its numbers. A clause of a contract sees the list of sets.
#[derive(Drop)]
pub struct Sets<'a> {
    item: &'a [u32],
}

impl<'a> Model for Sets<'a> {
    ghost use Rattle.std.specs.Prelude.{List};
    ghost use Rattle.sheet.specs.declared.Literals.{Literals};
    ghost use Rattle.sheet.specs.inner.Packed as R;

    ghost Value = { List Literals };

    ghost view = { λ s. R.sets_in s.item.now };

    ghost invariant = { λ s. R.SetsFit s.item.now };
}

impl<'a> Sets<'a> {
    // The sets in these numbers.
    pub fn of(item: &'a [u32]) -> Sets<'a>
        requires { R.SetsFit item.now }
        ensures { result ≡ R.sets_in item.now }
    {
        Sets { item }
    }

    // How many sets.
    pub fn len(&self) -> usize
        ensures value { result ≡ length self.now }
        ensures few { result ≤ 8 }
    {
        count_of(self.item)
    }

    // The set of number i.
    pub fn at(&self, i: usize) -> Literals
        requires { i < length self.now }
        ensures { result ≡ get_or self.now i L.no_literal }
    {
        set_at(self.item, i)
    }
}

// The effects of a move, lent: four masks to an effect. A clause of a contract sees the list of effects.
#[derive(Drop)]
pub struct Effects<'a> {
    numbers: &'a [u32],
    size: usize,
}

impl<'a> Model for Effects<'a> {
    ghost use Rattle.std.specs.Prelude.{List, ◌*◌, ◌≤◌, length};
    ghost use Rattle.sheet.specs.declared.Effect.{Effect};
    ghost use Rattle.sheet.specs.inner.Packed as R;

    ghost Value = { List Effect };

    ghost view = { λ e. R.effects_at e.size e.numbers.now };

    ghost invariant = { λ e. 4 * e.size ≤ length e.numbers.now };
}

impl<'a> Effects<'a> {
    // So many effects in these numbers.
    pub fn of(numbers: &'a [u32], size: usize) -> Effects<'a>
        requires { 4 * size ≤ length numbers.now }
        ensures { result ≡ R.effects_at size numbers.now }
    {
        Effects { numbers, size }
    }

    // How many effects.
    pub fn len(&self) -> usize
        ensures { result ≡ length self.now }
    {
        self.size
    }

    // The effect of number i.
    pub fn at(&self, i: usize) -> Effect
        requires { i < length self.now }
        ensures { result ≡ get_or self.now i R.no_effect }
    {
        effect_at(self.numbers, i)
    }
}
