// The 53 header words, from a line number and settings. Each step is lent the whole array, so that it says what it laid.
ghost use Rattle.std.specs.Prelude.{◌≡◌, map, ◌+◌, ◌-◌, ◌≤◌, length};
ghost use Rattle.lists.specs.Lists.{part};
ghost use Rattle.words.specs.Forms.{byte_word};
ghost use Rattle.words.specs.Crc.{crc_words};
ghost use Rattle.line.specs.Header.{header_words};
ghost use Rattle.line.specs.Cuts.{Laid};

use crate::settings;
use crate::settings::Settings;

// The words of src from at on.
fn lay_words(out: &mut [u16; 53], at: usize, src: &[u16])
    requires { at + length src.now ≤ 53 }
    ensures { Laid at src.now out.old out.new }
{
    let e = at + src.len();
    out[at..e].copy_from_slice(src);
}

// The bytes of src in byte form from at on.
fn lay_bytes(out: &mut [u16; 53], at: usize, src: &[u8])
    requires { at + length src.now ≤ 53 }
    ensures { Laid at (map byte_word src.now) out.old out.new }
{
    for (i, b) in src.iter().enumerate() {
        out[at + i] = words::forms::byte_word(u16::from(*b));
    }
}

// The CRC of the words from a to before e, in the two words at e.
fn lay_crc(out: &mut [u16; 53], a: usize, e: usize)
    requires { (a ≤ e) × (e + 2 ≤ 53) }
    ensures { Laid e (crc_words (part a (e - a) out.old)) out.old out.new }
{
    let c = sums::crc::crc_of(sums::crc::CRC_START, &out[a..e]);
    lay_words(out, e, &sums::crc::crc_words(c));
}

// The 53 header words.
pub fn header_words(number: u16, settings: Settings) -> [u16; 53]
    ensures { result ≡ header_words number settings }
{
    let s = settings::held(settings);
    let mut out = [0u16; 53];
    lay_words(&mut out, 0, &[0x000u16, 0x3ff, 0x3ff, 0x140, 0x101, 0x22e]);
    lay_bytes(
        &mut out,
        6,
        &[(number % 256) as u8, (number / 256 % 4) as u8],
    );
    lay_crc(&mut out, 3, 8);
    lay_bytes(&mut out, 10, &[s.code % 16 + s.aai % 16 * 16]);
    lay_bytes(&mut out, 11, &s.destination);
    lay_bytes(&mut out, 27, &s.source);
    lay_bytes(&mut out, 43, &[s.block, s.flag]);
    lay_bytes(&mut out, 45, &s.reserved);
    lay_crc(&mut out, 10, 50);
    let sum = sums::checksum::checksum_of(&out[3..52]);
    lay_words(&mut out, 52, &[sum]);
    out
}
