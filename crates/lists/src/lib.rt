// What every layer would otherwise say again: two lent parts compared, numbers copied, the lowest number whose condition holds, the smaller of
// two lengths and what is left of one, and how far a number is from 0.
#![tactic(auto)]

ghost use Rattle.std.specs.Prelude.{◌≡◌, List, Bool, eqb, nat_abs, length, ◌-◌, min};
ghost use Rattle.lists.specs.Tests.{pick, or_next};
ghost use Rattle.lists.specs.Lists.{same};
ghost use Rattle.lists.specs.Numbers.{pointwise_same};
ghost use lib.Pointwise.{pointwise};

// A byte or a word. Of parts that hold such numbers, std's `==` says what `same` says.
pub trait Number: PartialEq {
    ghost alike: { List Self → List Self → Bool };

    ghost is_alike: { (s t : List Self) → pointwise Self.eq s t ≡ alike s t };
}

impl Number for u8 {
    ghost alike = { same };

    ghost is_alike = { pointwise_same };
}

impl Number for u16 {
    ghost alike = { same };

    ghost is_alike = { pointwise_same };
}

// The two parts hold the same numbers. It leaves early, because with a loop over bytes that goes to its end the compiler takes the whole settings into
// single bytes, wherever they stand in a state (docs/PERFORMANCE.md). Not `s == t`: where the length is a constant, as that of a header's part is, that calls
// a loop, which takes several times as long (5 nanoseconds more a part); this one the compiler takes in whole.
pub fn same<T: Number>(s: &[T], t: &[T]) -> bool
    ensures { result ≡ T.alike s.now t.now }
{
    s.len() == t.len() && t.starts_with(s)
}

// The numbers of s, into a part that is as long as they are, and else nothing.
#[tactic(auto, unfolding(crate::specs::Tests::pick))]
pub fn copy_in<T: Copy>(s: &[T], out: &mut [T])
    ensures { out.new ≡ pick (eqb (length out.old) (length s.now)) s.now out.old }
{
    if out.len() == s.len() {
        out.copy_from_slice(s);
    }
}

// The number n where its condition holds, else the number that the later conditions gave.
#[tactic(auto, unfolding(crate::specs::Tests::pick))]
pub fn or_else(bad: bool, n: u8, later: u8) -> u8
    ensures { result ≡ pick bad n later }
{
    if bad { n } else { later }
}

// The first number unless it is 0, else the next.
pub fn or_next(first: u8, next: u8) -> u8
    ensures { result ≡ or_next first next }
{
    if first == 0 { next } else { first }
}

// a - b, or 0.
pub fn minus_or_zero(a: usize, b: usize) -> usize
    ensures { result ≡ a - b }
{
    a.saturating_sub(b)
}

// The smaller.
pub fn smaller_of(a: usize, b: usize) -> usize
    ensures { result ≡ min a b }
{
    a.min(b)
}

// How far from 0. The least number has no opposite in 32 bits.
pub fn size(d: i32) -> usize
    ensures { result ≡ nat_abs d }
{
    d.unsigned_abs() as usize
}
