// Lists of words, each in a form. No loop has an early exit, so that the compiler takes many words at a time.
ghost use Rattle.std.specs.Prelude.{◌≡◌, ◌&&◌, eqb, length};
ghost use Rattle.lists.specs.Lists.{each};
ghost use Rattle.words.specs.Forms.{is_byte, is_data};

// What two words are off byte form by: 0 where both are in it. Their low bytes stand side by side in one number, and go through the three folds of the parity together;
// above each byte has to stand 2, less its parity.
fn off_bytes(v: u16, w: u16) -> u16
    ensures { eqb result 0 ≡ (is_byte v && is_byte w) }
{
    let low = v % 256 + w % 256 * 256;
    let high = v / 256 + w / 256 * 256;
    let a = low ^ (low / 16);
    let b = a ^ (a / 4);
    let c = b ^ (b / 2);
    high ^ (0x202 - (c % 2 + c / 256 % 2 * 256))
}

// Each word of both lists is in byte form.
fn both_byte(s: &[u16], t: &[u16]) -> bool
    requires { length s.now ≡ length t.now }
    ensures { result ≡ (each is_byte s.now && each is_byte t.now) }
{
    let mut off = 0u16;
    for (v, w) in s.iter().zip(t) {
        off |= off_bytes(*v, *w);
    }
    off == 0
}

// Each word is in byte form: the first half beside the second, so that a loop asks of two words at once; and the last word, if it is over.
pub fn all_byte(s: &[u16]) -> bool
    ensures { result ≡ each is_byte s.now }
{
    let half = s.len() / 2;
    let e = half * 2;
    let pairs = both_byte(&s[..half], &s[half..e]);
    if e < s.len() {
        return pairs & words::forms::is_byte(s[e]);
    }
    pairs
}

// Each word is in data form.
pub fn all_data(s: &[u16]) -> bool
    ensures { result ≡ each is_data s.now }
{
    let mut ok = true;
    for w in s {
        ok &= words::forms::is_data(*w);
    }
    ok
}
