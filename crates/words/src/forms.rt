// Data form, byte form, and the words of values in 8-bit and 9-bit mode.
ghost use Rattle.std.specs.Prelude.{◌≡◌, ◌<◌, ◌%◌};
ghost use Rattle.words.specs.Forms.{parity, is_data, is_byte, data_word, byte_word};
ghost use Rattle.words.specs.Modes.{is_mode, values, word_of, value_of};

// The exclusive or of B7-B0, in three folds.
fn parity_of(w: u16) -> u16
    ensures { (result ≡ parity (w % 256)) × (result < 2) }
{
    let v = w % 256;
    let a = v ^ (v / 16);
    let b = a ^ (a / 4);
    (b ^ (b / 2)) % 2
}

// The word is in data form. Not `(256..768).contains(&w)`: loops that ask this of each word are a seventh slower with it.
pub fn is_data(w: u16) -> bool
    ensures { result ≡ is_data w }
{
    (256 <= w) & (w < 768)
}

// The word is in byte form: above its low byte stands 2, or 1 where the exclusive or of that byte is 1.
pub fn is_byte(w: u16) -> bool
    ensures { result ≡ is_byte w }
{
    w / 256 + parity_of(w) == 2
}

// The same as `is_byte`, asked of the word's two bytes: where a loop asks for codes too, some machines take twice as many words at a time. A single word is asked faster by `is_byte`.
pub fn has_byte_form(w: u16) -> bool
    ensures { result ≡ is_byte w }
{
    let [low, high] = w.to_le_bytes();
    let a = low ^ (low / 16);
    let b = a ^ (a / 4);
    let parity = (b ^ (b / 2)) % 2;
    high == 2 - parity
}

// The word in data form of B8-B0 of v.
#[tactic(auto, unfolding(crate::specs::Forms::data_word))]
pub fn data_word(v: u16) -> u16
    ensures { result ≡ data_word v }
{
    (1 - v / 256 % 2) * 512 + v % 512
}

// The word in byte form of B7-B0 of v.
pub fn byte_word(v: u16) -> u16
    ensures { result ≡ byte_word v }
{
    512 - parity_of(v) * 256 + v % 256
}

// The mode is 8 or 9.
#[tactic(auto, unfolding(crate::specs::Modes::is_mode))]
pub fn is_mode(mode: u8) -> bool
    ensures { result ≡ is_mode mode }
{
    matches!(mode, 8 | 9)
}

// How many values the mode has.
pub fn values_of(mode: u8) -> u16
    ensures { result ≡ values mode }
{
    if mode == 8 { 256 } else { 512 }
}

// The word of a value in the mode.
pub fn word_of(mode: u8, v: u16) -> u16
    ensures { result ≡ word_of mode v }
{
    if mode == 8 {
        byte_word(v)
    } else {
        data_word(v)
    }
}

// The value of a word in the mode.
pub fn value_of(mode: u8, w: u16) -> u16
    ensures { result ≡ value_of mode w }
{
    if mode == 8 { w % 256 } else { w % 512 }
}
