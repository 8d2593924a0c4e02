// Whether values are those that a mode has.
ghost use Rattle.std.specs.Prelude.{◌≡◌, ℕ, ◌^◌, ltb};
ghost use Rattle.lists.specs.Lists.{each};
ghost use Rattle.words.specs.Modes.{values};

// Each value is below the limit. Every value is looked at, so that the loop has no early exit.
pub fn all_below(limit: u16, s: &[u16]) -> bool
    ensures { result ≡ each (λ v. ltb v limit) s.now }
{
    let mut ok = true;
    for v in s {
        ok &= *v < limit;
    }
    ok
}

// The bits of all values together: below a power of two exactly if each value is.
fn bits_of(s: &[u16]) -> u16
    ensures { (n : ℕ) → ltb result (2 ^ n) ≡ each (λ v. ltb v (2 ^ n)) s.now }
{
    let mut bits = 0;
    for v in s {
        bits |= *v;
    }
    bits
}

// Each value is one of the mode's. How many a mode has is a power of two, so that the bits of many values together say it: 512 at a time, so that no chunk waits
// for the one before it.
pub fn all_valued(mode: u8, s: &[u16]) -> bool
    ensures { result ≡ each (λ v. ltb v (values mode)) s.now }
{
    let mut bits = 0;
    let mut left = s;
    while let Some((front, rest)) = left.split_first_chunk::<512>() {
        bits |= bits_of(front);
        left = rest;
    }
    (bits | bits_of(left)) < words::forms::values_of(mode)
}
