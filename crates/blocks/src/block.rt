// The words of a block, laid into a lent part: of a variable block, which is six words, the values and one word more, from any of them on;
// of a fixed block, which is one word and the values, all.
ghost use Rattle.std.specs.Prelude.{◌≡◌, [], ◌∷◌, ◌++◌, map, ◌+◌, ◌/◌, ◌%◌, ◌≤◌, length, take, drop};
ghost use Rattle.words.specs.Crc.{crc_of};
ghost use Rattle.words.specs.Forms.{byte_word};
ghost use Rattle.words.specs.Modes.{word_of};
ghost use Rattle.words.specs.Class.{separator, end_code};
ghost use Rattle.blocks.specs.Block.{count_words, block_words, fixed_words};
ghost use Rattle.blocks.specs.Laid.{laid_in, laid_on, crc_in};

use crate::fill;
use sums::crc;

// A byte of a count, in byte form.
fn count_word(n: usize, by: usize) -> u16
    requires { 1 ≤ by }
    ensures { result ≡ byte_word (n / by % 256) }
{
    words::forms::byte_word((n / by % 256) as u16)
}

// The six words before the values, from word j. Most often that is all of them: they are written one by one, because what is copied from an array that
// was just built waits for it.
fn lay_head(kind: u16, n: usize, j: usize, out: &mut [u16])
    requires { j + length out.old ≤ 6 }
    ensures { out.new ≡ take (length out.old) (drop j (separator ∷ byte_word kind ∷ count_words n)) }
{
    let word = words::forms::byte_word(kind);
    let b0 = count_word(n, 1);
    let b1 = count_word(n, 256);
    let b2 = count_word(n, 65536);
    let b3 = count_word(n, 16777216);
    if out.len() == 6 {
        out[0] = words::class::SEPARATOR;
        out[1] = word;
        out[2] = b0;
        out[3] = b1;
        out[4] = b2;
        out[5] = b3;
        return;
    }
    let head = [words::class::SEPARATOR, word, b0, b1, b2, b3];
    out.copy_from_slice(&head[j..j + out.len()]);
}

// The word after the values, where it is still to lay and has room.
fn put_end(j: usize, out: &mut [u16])
    ensures { out.new ≡ laid_on (drop j (end_code ∷ [])) out.old }
{
    if j == 0 && !out.is_empty() {
        out[0] = words::class::END_CODE;
    }
}

// The values and the word after them, from word j.
fn lay_rest(mode: u8, values: &[u16], j: usize, out: &mut [u16])
    ensures { out.new ≡ laid_on (drop j (map (word_of mode) values.now ++ (end_code ∷ []))) out.old }
{
    let n = values.len();
    let a = out.len().min(n.saturating_sub(j));
    let b = j.min(n);
    fill::put_values(mode, &values[b..b + a], &mut out[..a]);
    put_end(j.saturating_sub(n), &mut out[a..]);
}

// A variable block's words from word j, as many as there are and have room; the rest of the part stays.
fn lay_words(mode: u8, kind: u16, values: &[u16], j: usize, out: &mut [u16])
    ensures { out.new ≡ laid_on (drop j (block_words mode kind values.now)) out.old }
{
    let a = out.len().min(6usize.saturating_sub(j));
    lay_head(kind, values.len(), j.min(6), &mut out[..a]);
    lay_rest(mode, values, j.saturating_sub(6), &mut out[a..]);
}

// The same, and the CRC taken on over the part. No length is tested: all lengths are clamped anyway, and a test more is seen in blocks of a few words.
pub fn lay_on(mode: u8, kind: u16, values: &[u16], j: usize, c: u32, out: &mut [u16]) -> u32
    ensures { (out.new ≡ laid_on (drop j (block_words mode kind values.now)) out.old) × (result ≡ crc_of c out.new) }
{
    lay_words(mode, kind, values, j, out);
    crc::crc_of(c, out)
}

// A place of a fixed line: the type word and the values.
fn lay_fixed(mode: u8, kind: u16, values: &[u16], out: &mut [u16])
    requires { length out.old ≡ length values.now + 1 }
    ensures { out.new ≡ fixed_words mode kind values.now }
{
    out[0] = words::forms::byte_word(kind);
    fill::put_values(mode, values, &mut out[1..]);
}

// The same, and the CRC taken on over them. A part that is not as long as the block is left as it was. Numbers go in and one comes out, because the
// compiler keeps a function that is called from two places apart, and structs would go by memory.
pub fn lay_place(mode: u8, kind: u16, values: &[u16], c: u32, out: &mut [u16]) -> u32
    ensures { (out.new ≡ laid_in (fixed_words mode kind values.now) out.old)
        × (result ≡ crc_in c (fixed_words mode kind values.now) out.old) }
{
    if values.len() + 1 != out.len() {
        return c;
    }
    lay_fixed(mode, kind, values, out);
    crc::crc_of(c, out)
}
