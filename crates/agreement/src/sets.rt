// Sets of senders as numbers: digit i tells of sender i. That i is below 32 stays a `requires` where it is used: a type for it would be taken
// apart at each place.
ghost use Rattle.std.specs.Prelude.{◌≡◌, ◌&&◌, ◌||◌, not, ℕ, ◌^◌, ◌≤◌, ◌<◌, leb, ltb};
ghost use Rattle.std.specs.Iterator.{at_most};
ghost use Rattle.agreement.specs.Limits.{most_senders};
ghost use Rattle.agreement.specs.Sets.{count, member, adding, removing};
ghost use Rattle.agreement.specs.Steps.{SetOf, TakesLowest, Filtered};

use super::MOST_SENDERS;

// Sender i alone.
fn alone(i: usize) -> u32
    requires { i < most_senders }
    ensures { result ≡ 2 ^ i }
{
    1u32 << (i as u32)
}

// Sender i is in the set.
pub(crate) fn has(set: u32, i: usize) -> bool
    requires { i < most_senders }
    ensures { result ≡ member set i }
{
    (set >> (i as u32)) % 2 == 1
}

// The same for any number: no sender is numbered 32 or above.
pub fn is_member(set: u32, i: u8) -> bool
    ensures { result ≡ member set i }
{
    let k = i as usize;
    if MOST_SENDERS <= k {
        return false;
    }
    has(set, k)
}

// The set and sender i.
pub(crate) fn with_sender(set: u32, i: usize) -> u32
    requires { i < most_senders }
    ensures { result ≡ adding set i }
{
    set | alone(i)
}

// The set without sender i.
pub(crate) fn without_sender(set: u32, i: usize) -> u32
    requires { i < most_senders }
    ensures { result ≡ removing set i }
{
    set ^ (set & alone(i))
}

// The senders in both sets.
pub(crate) fn in_both(a: u32, b: u32) -> u32
    ensures { SetOf (λ i. member a i && member b i) most_senders result }
{
    a & b
}

// The senders in the first set and not in the second.
pub(crate) fn in_first(a: u32, b: u32) -> u32
    ensures { SetOf (λ i. member a i && not (member b i)) most_senders result }
{
    a ^ (a & b)
}

// The senders in either set.
pub(crate) fn in_either(a: u32, b: u32) -> u32
    ensures { SetOf (λ i. member a i || member b i) most_senders result }
{
    a | b
}

// Senders that are left of a set, to be taken one after another, the lowest first.
#[derive(Clone, Copy)]
pub(crate) struct Iter {
    left: u32,
}

// The senders of a set, the lowest first, each with its digit.
pub(crate) fn members(set: u32) -> Iter
    ensures { result.left ≡ set }
{
    Iter { left: set }
}

impl Iterator for Iter {
    type Item = (usize, u32);

    ghost next_gives = { TakesLowest };

    ghost remaining = { λ s. at_most (count most_senders (member s.left)) };

    fn next(&mut self) -> Option<(usize, u32)> {
        if self.left == 0 {
            return None;
        }
        let i = self.left.trailing_zeros() as usize;
        let rest = self.left & (self.left - 1);
        let digit = self.left - rest;
        self.left = rest;
        Some((i, digit))
    }
}

// The senders of a set that pass a test.
pub(crate) fn filtered<F: Fn(usize) -> bool>(set: u32, passes: F) -> u32
    requires { (j : ℕ) → j < most_senders → F.pre passes j }
    ensures { Filtered (F.post passes) set result }
{
    let mut kept = 0;
    for (i, digit) in members(set) {
        if passes(i) {
            kept |= digit;
        }
    }
    kept
}

// How many senders are in the set.
pub(crate) fn size(set: u32) -> usize
    ensures { (result ≡ count most_senders (member set)) × (result ≤ most_senders) }
{
    set.count_ones() as usize
}

// A sender at n or above is in the set.
pub fn reaches(set: u32, n: u8) -> bool
    ensures { result ≡ ltb 0 (count most_senders (λ i. leb n i && member set i)) }
{
    let i = n as usize;
    if MOST_SENDERS <= i {
        return false;
    }
    alone(i) <= set
}

// A sender is in both sets.
pub fn meet(a: u32, b: u32) -> bool
    ensures { result ≡ ltb 0 (count most_senders (λ i. member a i && member b i)) }
{
    in_both(a, b) != 0
}

// A sender of the first set is not in the second.
pub fn exceeds(a: u32, b: u32) -> bool
    ensures { result ≡ ltb 0 (count most_senders (λ i. member a i && not (member b i))) }
{
    in_first(a, b) != 0
}
