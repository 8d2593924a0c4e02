// What stands in the head of a line, and the conditions 3 to 9.
ghost use Rattle.std.specs.Prelude.{◌≡◌, map, ◌+◌, ◌-◌, ◌≤◌, length, drop};
ghost use Rattle.lists.specs.Tests.{lowest_of};
ghost use Rattle.lists.specs.Lists.{part, same};
ghost use Rattle.words.specs.Crc.{crc_words};
ghost use Rattle.line.specs.Check.{low, number_of, settings_of, timed, formed, numbered, head_faults};

use line::settings::Settings;
use line::systems::System;
use line::{forms, timing};

// The low bytes of the words.
fn low_bytes<const N: usize>(src: &[u16]) -> [u8; N]
    requires { length src.now ≡ N }
    ensures { result ≡ map low src.now }
{
    let mut out = [0; N];
    for (i, w) in src.iter().enumerate() {
        out[i] = (*w % 256) as u8;
    }
    out
}

// The line number.
#[tactic(auto, unfolding(line::specs::Check::number_of))]
pub(crate) fn number_of(line: &[u16]) -> u16
    requires { 57 ≤ length line.now }
    ensures { result ≡ number_of line.now }
{
    line[10] % 256 + line[11] % 4 * 256
}

// The settings, as byte values.
#[tactic(auto, unfolding(line::specs::Check::settings_of))]
pub(crate) fn settings_of(line: &[u16]) -> Settings
    requires { 57 ≤ length line.now }
    ensures { result ≡ settings_of line.now }
{
    let first = (line[14] % 256) as u8;
    Settings {
        code: first % 16,
        aai: first / 16,
        destination: low_bytes(&line[15..31]),
        source: low_bytes(&line[31..47]),
        block: (line[47] % 256) as u8,
        flag: (line[48] % 256) as u8,
        reserved: low_bytes(&line[49..54]),
    }
}

// EAV at 0-3, and SAV in the four words at sav, with the F and V of the EAV. Each test leaves, the first of what no EAV is without: what is no line costs little.
fn is_timed(sav: usize, line: &[u16]) -> bool
    requires { (4 ≤ length line.now) × (sav + 4 ≤ length line.now) }
    ensures { result ≡ timed sav line.now }
{
    if !line.starts_with(&[0x3ff, 0x000, 0x000]) {
        return false;
    }
    let w = line[3];
    let f = w / 256 % 2 == 1;
    let v = w / 128 % 2 == 1;
    if !line.starts_with(&timing::timing_words(f, v, true)) {
        return false;
    }
    line[sav..].starts_with(&timing::timing_words(f, v, false))
}

// The header words after the first six, each in its form.
#[tactic(auto, unfolding(line::specs::Check::formed))]
fn is_formed(line: &[u16]) -> bool
    requires { 57 ≤ length line.now }
    ensures { result ≡ formed line.now }
{
    let number = forms::all_byte(&line[10..12]);
    let line_crc = forms::all_data(&line[12..14]);
    let settings = forms::all_byte(&line[14..54]);
    let header_crc = forms::all_data(&line[54..57]);
    number & (line_crc & (settings & header_crc))
}

// The two words at e are the CRC of the words from a to before e.
#[tactic(auto, using(line::proofs::Fronts::in_front), unfolding(words::specs::Crc::crc_words))]
fn crc_stands(line: &[u16], a: usize, e: usize) -> bool
    requires { (a ≤ e) × (e + 2 ≤ length line.now) }
    ensures { result ≡ same (part e 2 line.now) (crc_words (part a (e - a) line.now)) }
{
    let c = sums::crc::crc_of(sums::crc::CRC_START, &line[a..e]);
    line[e..].starts_with(&sums::crc::crc_words(c))
}

// The number is 1..N, and B7-B2 of its second word are 0.
#[tactic(auto, unfolding(line::specs::Check::numbered))]
fn is_numbered(lines: u16, line: &[u16]) -> bool
    requires { 57 ≤ length line.now }
    ensures { result ≡ numbered lines line.now }
{
    let n = number_of(line);
    let high = line[11] % 256 / 4;
    (1 <= n) & ((n <= lines) & (high == 0))
}

// The lowest of 5 to 9 that holds of a line of the system's length, or 0: from the last condition to the first.
fn words_fault(s: System, line: &[u16]) -> u8
    requires { 57 ≤ length line.now }
    ensures { result ≡ lowest_of (drop 2 (head_faults s line.now)) }
{
    let sum = sums::checksum::checksum_of(&line[7..56]);
    let r9 = lists::or_else(!is_numbered(s.lines, line), 9, 0);
    let r8 = lists::or_else(!crc_stands(line, 14, 54), 8, r9);
    let r7 = lists::or_else(!crc_stands(line, 7, 12), 7, r8);
    let r6 = lists::or_else(line[56] != sum, 6, r7);
    lists::or_else(!is_formed(line), 5, r6)
}

// The lowest of 3 to 9 that holds of a line of the system's length, or 0. 3 and 4 leave: what is no line of ours costs little.
pub(crate) fn head_fault(s: System, line: &[u16]) -> u8
    requires { (s.payload + 61 ≤ s.length) × (s.length ≡ length line.now) }
    ensures { result ≡ lowest_of (head_faults s line.now) }
{
    let sav = s.length - s.payload - 4;
    if !is_timed(sav, line) {
        return 3;
    }
    if !line[4..].starts_with(&[0x000, 0x3ff, 0x3ff, 0x140, 0x101, 0x22e]) {
        return 4;
    }
    words_fault(s, line)
}
