// Sets of literals as two masks: shifts make the mask of a literal; and, or and complement do the rest.
ghost use Rattle.std.specs.Prelude.{◌≡◌, ◌*◌, ◌<◌, ◌≤◌};
ghost use Rattle.sheet.specs.inner.Widths.{most_propositions};
ghost use Rattle.sheet.specs.Literals as L;
ghost use Rattle.sheet.specs.inner.Masks as K;

use crate::Literals;
use crate::limits::PROPOSITIONS;

// All literals of a lie in b.
pub fn within(a: Literals, b: Literals) -> bool
    ensures { result ≡ L.within a b }
{
    (a.trues & !b.trues) | (a.falses & !b.falses) == 0
}

// Some literal of a has its complement in b.
pub fn clash(a: Literals, b: Literals) -> bool
    ensures { result ≡ L.clash a b }
{
    (a.trues & b.falses) | (a.falses & b.trues) != 0
}

// No literal with its complement.
pub fn consistent(a: Literals) -> bool
    ensures { result ≡ L.consistent a }
{
    a.trues & a.falses == 0
}

// The union.
pub fn join(a: Literals, b: Literals) -> Literals
    ensures { result ≡ L.join a b }
{
    Literals {
        trues: a.trues | b.trues,
        falses: a.falses | b.falses,
    }
}

// The literals of a that are not in b.
pub fn minus(a: Literals, b: Literals) -> Literals
    ensures { result ≡ K.minus a b }
{
    Literals {
        trues: a.trues & !b.trues,
        falses: a.falses & !b.falses,
    }
}

// The complement of each literal.
pub fn flip(a: Literals) -> Literals
    ensures { result ≡ L.flip a }
{
    Literals {
        trues: a.falses,
        falses: a.trues,
    }
}

// The results r replace their complements in a.
pub fn replace(a: Literals, r: Literals) -> Literals
    ensures { result ≡ L.replace a r }
{
    Literals {
        trues: (a.trues & !r.falses) | r.trues,
        falses: (a.falses & !r.trues) | r.falses,
    }
}

// The set of one literal: 2p says that p is true, 2p + 1 that p is false.
pub fn literal(l: usize) -> Literals
    requires { l < 64 }
    ensures { result ≡ L.literal l }
{
    let m = 1u32 << (l / 2);
    if l % 2 == 0 {
        Literals {
            trues: m,
            falses: 0,
        }
    } else {
        Literals {
            trues: 0,
            falses: m,
        }
    }
}

// The literal l is in a.
pub(crate) fn contains(a: Literals, l: usize) -> bool
    ensures { result ≡ L.contains a l }
{
    if l >= 64 {
        return false;
    }
    if l % 2 == 0 {
        (a.trues >> (l / 2)) & 1 == 1
    } else {
        (a.falses >> (l / 2)) & 1 == 1
    }
}

// The smallest literal of a at the propositions from p on; 64 where there is none. A number, as its definition `K.next`: what calls it goes
// on to the place after it.
fn lowest(a: Literals, p: usize) -> usize
    requires { p ≤ most_propositions }
    ensures { result ≡ K.next a (2 * p) }
{
    if p >= PROPOSITIONS {
        return 64;
    }
    let named = (a.trues | a.falses) >> p;
    if named == 0 {
        return 64;
    }
    let l = 2 * (p + u32::trailing_zeros(named) as usize);
    if contains(a, l) {
        return l;
    }
    l + 1
}

// The smallest literal of a from `from` on; 64 or more where there is none, as the definition `K.next` gives it.
pub fn next(a: Literals, from: usize) -> usize
    ensures { result ≡ K.next a from }
{
    if from >= 64 {
        return from;
    }
    if from % 2 == 0 {
        return lowest(a, from / 2);
    }
    if contains(a, from) {
        return from;
    }
    lowest(a, from / 2 + 1)
}

// Every proposition named in a is below n.
pub fn below(n: usize, a: Literals) -> bool
    ensures { result ≡ L.below n a }
{
    if n >= PROPOSITIONS {
        return true;
    }
    (a.trues | a.falses) >> n == 0
}
