// The 18-bit CRC of a lent part, from any register, of which only the 18 low bits count. 01 says it bit by bit. What the bits feed back comes round again only
// after 13 steps, so that a word, or six words at once, go by shifts. Many words are folded first: a word counts as much as it would at three places further on,
// so that they are xored into a few, which the compiler does with many at once. All of it is proved equal to the bits.
ghost use Rattle.std.specs.Prelude.{◌≡◌, ◌+◌, ◌-◌, ◌*◌, ◌%◌, ◌^◌, ◌<◌, ◌≤◌, length, replicate, drop};
ghost use Rattle.words.specs.Shifts.{fed, quiet, packed};
ghost use Rattle.sums.specs.Folds.{Folds, Gathered, Xored, held, mixed};
ghost use Rattle.words.specs.Crc.{crc_bits, crc_of, register_words, low_bits};

use words::forms;

// The register before any word: all ones.
pub const CRC_START: u32 = 0x3ffff;

// The register after a word's ten bits.
fn crc_word(c: u32, w: u16) -> u32
    requires { c < 2 ^ 18 }
    ensures { result ≡ crc_bits c (low_bits 10 w) }
{
    let x = (c ^ (w as u32)) % 1024;
    (c / 1024) ^ (x * 256) ^ (x * 16) ^ (x * 8)
}

// A number and what it feeds back at three distances.
fn feed(x: u64, i: u32, j: u32, k: u32) -> u64
    requires { (i < 64) × ((j < 64) × (k < 64)) }
    ensures { result ≡ fed i j k x }
{
    x ^ (x << i) ^ (x << j) ^ (x << k)
}

// The register after sixty bits that are 0, with those above it come down: what is fed back once, what that feeds back, and what that does.
fn after_sixty(x: u64) -> u32
    requires { x < 2 ^ 60 }
    ensures { result ≡ quiet 60 x }
{
    let once = feed(x, 13, 14, 18);
    let twice = feed(once, 26, 28, 36);
    let f = feed(twice, 52, 56, 60) % 0x1000000000000000;
    ((f >> 42) ^ (f >> 46) ^ (f >> 47)) as u32
}

// The ten bits of a word.
fn ten(w: u16) -> u64
    ensures { (result ≡ w % 1024) × (result < 1024) }
{
    (w % 1024) as u64
}

// The register after six words.
fn crc_six(c: u32, s: &[u16]) -> u32
    requires { (c < 2 ^ 18) × (length s.now ≡ 6) }
    ensures { result ≡ crc_of c s.now }
{
    let upper = (ten(s[5]) * 1024 + ten(s[4])) * 1024 + ten(s[3]);
    let lower = (ten(s[2]) * 1024 + ten(s[1])) * 1024 + ten(s[0]);
    after_sixty((c as u64) ^ (upper * 1073741824 + lower))
}

// The register after the words, one by one.
fn crc_each(c: u32, s: &[u16]) -> u32
    requires { c < 2 ^ 18 }
    ensures { result ≡ crc_of c s.now }
{
    let mut x = c;
    for w in s {
        x = crc_word(x, *w);
    }
    x
}

// The words side by side in one number, the first lowest.
fn beside(s: &[u16]) -> u64
    requires { length s.now ≤ 6 }
    ensures { result ≡ packed s.now }
{
    let mut z = 0u64;
    for i in (0..s.len()).rev() {
        z = z * 1024 + ten(s[i]);
    }
    z
}

// The register after two to five words at one step: under them stand so many bits that are 0 that there are sixty.
fn crc_few(c: u32, s: &[u16]) -> u32
    requires { (c < 2 ^ 18) × ((2 ≤ length s.now) × (length s.now ≤ 6)) }
    ensures { result ≡ crc_of c s.now }
{
    let z = (c as u64) ^ beside(s);
    let up = (60 - 10 * s.len()) as u32;
    after_sixty(z << up)
}

// The register after less than six words.
fn crc_rest(c: u32, s: &[u16]) -> u32
    requires { (c < 2 ^ 18) × (length s.now ≤ 6) }
    ensures { result ≡ crc_of c s.now }
{
    if s.len() < 2 {
        crc_each(c, s)
    } else {
        crc_few(c, s)
    }
}

// The register after the words: six at a time, then what is left. This loop and the two with 18 and 1,920 words are not one function that takes the step:
// each step has a contract of its own, and a clause that says so of any step is longer than the loop.
fn crc_short(c: u32, s: &[u16]) -> u32
    requires { c < 2 ^ 18 }
    ensures { result ≡ crc_of c s.now }
{
    let mut x = c;
    let mut left = s;
    while let Some((front, rest)) = left.split_first_chunk::<6>() {
        x = crc_six(x, front);
        left = rest;
    }
    crc_rest(x, left)
}

// The register after eighteen words. Their own register, from 0, does not wait for c; and c goes on over 180 bits at one step: so many bits that are 0 do
// what 37, 42 and 48 of them do together, which all are parts of sixty.
fn crc_eighteen(c: u32, s: &[u16]) -> u32
    requires { (c < 2 ^ 18) × (length s.now ≡ 18) }
    ensures { result ≡ crc_of c s.now }
{
    let w = c as u64;
    let a = crc_six(0, &s[0..6]);
    let b = crc_six(a, &s[6..12]);
    let own = crc_six(b, &s[12..18]);
    own ^ after_sixty((w * 0x800000) ^ (w * 0x40000) ^ (w * 0x1000))
}

// The register after the words: eighteen at a time, then what is left.
fn crc_folded(c: u32, s: &[u16]) -> u32
    requires { c < 2 ^ 18 }
    ensures { result ≡ crc_of c s.now }
{
    let mut x = c;
    let mut left = s;
    while let Some((front, rest)) = left.split_first_chunk::<18>() {
        x = crc_eighteen(x, front);
        left = rest;
    }
    crc_short(x, left)
}

// The words of s go behind the first z words of f, each xored with those that stand z, z - a and z - b places before it.
fn gather(z: usize, a: usize, b: usize, s: &[u16], f: &mut [u16])
    requires { Folds z a b × (length s.now + z ≤ length f.old) }
    ensures { Gathered z a b s.now f.old f.new (length s.now) }
{
    for i in 0..s.len() {
        f[i + z] = s[i] ^ f[i + a] ^ f[i + b] ^ f[i];
    }
}

// The last words go elsewhere: each is xored with the three words of f, and with none of their own.
fn mix(a: usize, b: usize, s: &[u16], f: &[u16], y: &mut [u16])
    requires { (length y.old ≡ length s.now) × ((a + length s.now ≤ length f.now) × (b + length s.now ≤ length f.now)) }
    ensures { crc_of 0 y.new ≡ mixed a b (length s.now) s.now f.now }
{
    for i in 0..s.len() {
        y[i] = s[i] ^ f[a + i] ^ f[b + i] ^ f[i];
    }
}

// All words of s in z words, y: the CRC of y is theirs from the register that f holds. Behind its first z words f is 0.
fn fold(z: usize, a: usize, b: usize, s: &[u16], f: &mut [u16], y: &mut [u16])
    requires { Folds z a b × ((z ≤ length s.now) × ((length s.now + z ≤ length f.old) × ((length y.old ≡ z) × (drop z f.old ≡ replicate (length f.old - z) 0)))) }
    ensures { crc_of 0 y.new ≡ crc_of (held z a b f.old) s.now }
{
    let m = s.len() - z;
    gather(z, a, b, &s[..m], f);
    mix(a, b, &s[m..], &f[m..], y);
}

// Each of the first n words is xored into the word a places further on; n is at most a, so that none of them changes on the way.
fn onto(a: usize, n: usize, f: &mut [u16])
    requires { (n ≤ a) × (a + n ≤ length f.old) }
    ensures { Xored a f.old f.new n }
{
    for i in 0..n {
        f[i + a] ^= f[i];
    }
}

// The first n words go a, b and z places further on, all three: the words behind them have the CRC of all.
fn moved(n: usize, a: usize, b: usize, z: usize, f: &mut [u16])
    requires { Folds z (z - a) (z - b) × ((n ≤ a) × ((n ≤ b) × ((a ≤ z) × ((b ≤ z) × (z + n ≤ length f.old))))) }
    ensures { crc_of 0 (drop n f.new) ≡ crc_of 0 f.old }
{
    onto(a, n, f);
    onto(b, n, f);
    onto(z, n, f);
}

// The register after 304 to 1,920 words, which become 304; of those the first 76 and then 76 more go on to the last 152. The register c stands before the
// words as two words.
fn crc_long(c: u32, s: &[u16]) -> u32
    requires { (c < 2 ^ 18) × ((304 ≤ length s.now) × (length s.now ≤ 1920)) }
    ensures { result ≡ crc_of c s.now }
{
    let mut f = [0u16; 2224];
    f[0] = (c % 1024) as u16;
    f[1] = (c / 1024) as u16;
    let mut y = [0u16; 304];
    fold(304, 152, 128, s, &mut f, &mut y);
    moved(76, 76, 88, 152, &mut y);
    moved(76, 76, 88, 152, &mut y[76..304]);
    crc_folded(0, &y[152..304])
}

// The register after any number of words, 1,920 at a turn.
fn crc_pieces(c: u32, s: &[u16]) -> u32
    requires { c < 2 ^ 18 }
    ensures { result ≡ crc_of c s.now }
{
    let mut x = c;
    let mut left = s;
    while let Some((front, rest)) = left.split_first_chunk::<1920>() {
        x = crc_long(x, front);
        left = rest;
    }
    crc_short(x, left)
}

// The register after the words, from the register c. Few words are not worth folding.
pub fn crc_of(c: u32, s: &[u16]) -> u32
    ensures { result ≡ crc_of c s.now }
{
    let x = c % 262144;
    match s.len() {
        0..456 => crc_short(x, s),
        456..=1920 => crc_long(x, s),
        _ => crc_pieces(x, s),
    }
}

// The register after 156 words of filler, from the register 0.
const FAR_FILLER: u32 = 0x314c3;

// The register after n times 156 words of filler. 156 words that are 0 do what 25, 48 and 57 bits that are 0 do together, and those are one step.
fn filler_far(c: u32, n: usize) -> u32
    requires { c < 2 ^ 18 }
    ensures { result ≡ crc_of c (replicate (n * 156) 0x200) }
{
    let mut x = c;
    for _ in 0..n {
        let w = x as u64;
        x = after_sixty((w * 0x800000000) ^ (w * 0x1000) ^ (w * 8)) ^ FAR_FILLER;
    }
    x
}

// Six words of filler side by side, the first lowest.
const SIX_FILLERS: u64 = 0x802008020080200;

// The register after n words of filler 200h, from the register c: 156 at a time, six at a time, then what is left. No word is looked at.
pub fn crc_filler(c: u32, n: usize) -> u32
    ensures { result ≡ crc_of c (replicate n 0x200) }
{
    let mut x = filler_far(c % 262144, n / 156);
    let mut left = n % 156;
    while 6 <= left {
        x = after_sixty((x as u64) ^ SIX_FILLERS);
        left -= 6;
    }
    let few = [0x200u16; 5];
    crc_each(x, &few[..left])
}

// The two words of a register: C8-C0, then C17-C9.
pub fn crc_words(register: u32) -> [u16; 2]
    ensures { result ≡ register_words register }
{
    let low = forms::data_word((register % 512) as u16);
    let high = forms::data_word((register / 512 % 512) as u16);
    [low, high]
}
