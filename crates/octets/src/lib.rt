// Bytes of the outside: words from bytes and bytes from words, two bytes a word, low byte first; and a number from its text.
#![tactic(auto)]

ghost use Rattle.std.specs.Prelude.{◌≡◌, ◌+◌, ◌*◌, ◌/◌, ◌%◌, min, length, get_or};
ghost use Rattle.std.proofs.Math.Seq.{paste};
ghost use Rattle.octets.specs.Bytes.{words_of, bytes_of, is_even};
ghost use Rattle.octets.specs.Numbers.{digit_more, number_of};

// An even number of bytes.
pub fn is_even(bytes: &[u8]) -> bool
    ensures { result ≡ is_even bytes.now }
{
    bytes.len() % 2 == 0
}

// A word of two bytes.
pub fn joined(low: u8, high: u8) -> u16
    ensures { result ≡ low + high * 256 }
{
    u16::from(low) + u16::from(high) * 256
}

// Word i of the bytes; 0 where there is none.
pub fn word_at(bytes: &[u8], i: usize) -> u16
    ensures { result ≡ get_or (words_of bytes.now) i 0 }
{
    if i < bytes.len() / 2 {
        joined(bytes[2 * i], bytes[2 * i + 1])
    } else {
        0
    }
}

// The words of the bytes, so many as there are whole pairs of bytes and room for; the rest of out stays.
// By an index: the definition of what is laid counts words, and a pair of `chunks_exact` would be turned into that count again.
pub fn words_of(bytes: &[u8], out: &mut [u16])
    ensures { out.new ≡ paste out.old 0 (words_of bytes.now) (min (length (words_of bytes.now)) (length out.old)) }
{
    for i in 0..out.len().min(bytes.len() / 2) {
        out[i] = joined(bytes[2 * i], bytes[2 * i + 1]);
    }
}

// A word's low byte and its high byte, as the definition of the bytes has them.
fn low(w: u16) -> u8
    ensures { result ≡ w % 256 }
{
    (w % 256) as u8
}

fn high(w: u16) -> u8
    ensures { result ≡ w / 256 }
{
    (w / 256) as u8
}

// The bytes of the words, so many words as there are and both their bytes have room for; the rest of out stays.
pub fn bytes_of(words: &[u16], out: &mut [u8])
    ensures { out.new ≡ paste out.old 0 (bytes_of words.now) (2 * min (length words.now) (length out.old / 2)) }
{
    for i in 0..words.len().min(out.len() / 2) {
        out[2 * i] = low(words[i]);
        out[2 * i + 1] = high(words[i]);
    }
}

// One digit more.
#[tactic(auto, unfolding(crate::specs::Numbers::digit_more, lists::specs::Tests::pick))]
fn digit_more(x: u16, b: u8) -> u16
    ensures { result ≡ digit_more x b }
{
    if x < 1000 && (b'0'..=b'9').contains(&b) {
        x * 10 + u16::from(b - b'0')
    } else {
        10000
    }
}

// The number that a text is in decimal, up to 9,999; 10000 where it is none.
pub fn number_of(text: &[u8]) -> u16
    ensures { result ≡ number_of text.now }
{
    if text.is_empty() {
        return 10000;
    }
    let mut x = 0;
    for b in text {
        x = digit_more(x, *b);
    }
    x
}
