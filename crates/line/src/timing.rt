// The timing words EAV and SAV.
ghost use Rattle.std.specs.Prelude.{◌≡◌, ◌<◌};
ghost use Rattle.line.specs.Timing.{bit_of, timing_word, timing_words};

// A flag as a bit.
fn bit_of(b: bool) -> u16
    ensures { (result ≡ bit_of b) × (result < 2) }
{
    u16::from(b)
}

// The fourth word: of EAV where h, else of SAV.
pub fn timing_word(f: bool, v: bool, h: bool) -> u16
    ensures { result ≡ timing_word f v h }
{
    512 + bit_of(f) * 256
        + bit_of(v) * 128
        + bit_of(h) * 64
        + bit_of(v ^ h) * 32
        + bit_of(f ^ h) * 16
        + bit_of(f ^ v) * 8
        + bit_of(f ^ v ^ h) * 4
}

// The four words: EAV where h, else SAV.
#[tactic(auto, unfolding(crate::specs::Timing::timing_words))]
pub fn timing_words(f: bool, v: bool, h: bool) -> [u16; 4]
    ensures { result ≡ timing_words f v h }
{
    [0x3ff, 0, 0, timing_word(f, v, h)]
}
