// What is made from a seed. The generator: x starts as the seed, and each next number is x * 1664525 + 1013904223 modulo 2^32.
// Each number gives x / 65536, sixteen bits.
use words::forms;

// The generator's next number.
fn next(x: u64) -> u64 {
    (x % 4294967296 * 1664525 + 1013904223) % 4294967296
}

// A word of a kind from sixteen bits u: 2 u; 3 its low ten bits; 8 and 9 the word of the mode of its low eight (nine) bits; 28 its low eight
// bits; of any other kind the seed itself.
fn word(kind: u64, seed: u64, u: u16) -> u16 {
    match kind {
        2 => u,
        3 => u % 1024,
        8 => forms::word_of(8, u),
        9 => forms::word_of(9, u),
        28 => u % 256,
        _ => (seed % 65536) as u16,
    }
}

// Words of a kind, each from the next of the generator's numbers.
pub(crate) fn words(out: &mut [u16], kind: u64, seed: u64) {
    let mut x = seed;
    for w in out {
        x = next(x);
        *w = word(kind, seed, (x / 65536 % 65536) as u16);
    }
}
