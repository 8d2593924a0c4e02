// The conditions 15 and 16: the words of the area and their CRC. `every` is compiled to a loop for each mode and kind of line, with no early exit, so that
// the compiler takes many words at a time. No class is decided here: words are asked for their form, which goes eight at a time where a look into the
// table of classes goes one by one (docs/PERFORMANCE.md).
ghost use Rattle.std.specs.Prelude.{◌≡◌, ℕ, Bool, true, false, ◌+◌, ◌≤◌, length, eqb};
ghost use Rattle.lists.specs.Tests.{pick, lowest_of};
ghost use Rattle.lists.specs.Lists.{same, each};
ghost use Rattle.words.specs.Forms.{is_byte, is_data};
ghost use Rattle.line.specs.Layout.{end_words};
ghost use Rattle.line.specs.Check.{legal, area_faults, payload_faults};

use line::systems::System;
use line::{fixed, forms, layout};
use words::class;

// 8-bit mode, a fixed line: byte form, or 100h.
#[tactic(auto, using(line::proofs::AreaLaws::eight_legal))]
fn is_eight(w: u16) -> bool
    ensures { result ≡ legal 8 false w }
{
    words::forms::has_byte_form(w) | (w == class::NULL_WORD)
}

// The same, or one of the two codes: a variable line.
fn is_eight_or_code(w: u16) -> bool
    ensures { result ≡ legal 8 true w }
{
    is_eight(w) | class::is_code(w)
}

// 9-bit mode, a variable line: data form, or one of the two codes.
fn is_nine_or_code(w: u16) -> bool
    ensures { result ≡ legal 9 true w }
{
    words::forms::is_data(w) | class::is_code(w)
}

// Each word passes the test. The loop has no early exit.
fn every<F: Fn(u16) -> bool>(s: &[u16], test: F) -> bool
    requires { F.IsAlwaysCallable test }
    ensures { (p : ℕ → Bool) → ((w : ℕ) (b : Bool) → F.post test w b → b ≡ p w) → result ≡ each p s.now }
{
    let mut ok = true;
    for w in s {
        ok &= test(*w);
    }
    ok
}

// Each word is in the mode's own form: no code and no 100h stands among them.
#[tactic(auto, unfolding(lists::specs::Tests::pick))]
fn all_formed(mode: u8, s: &[u16]) -> bool
    ensures { result ≡ each (λ w. pick (eqb mode 8) (is_byte w) (is_data w)) s.now }
{
    if mode == 8 {
        forms::all_byte(s)
    } else {
        forms::all_data(s)
    }
}

// The words from the first chunk of 128 on with a word that is not in the mode's form, or from where no whole chunk is left: of those before it nothing else
// has to be asked, whatever the kind of line. Long blocks and filler are such words.
fn behind_formed(mode: u8, s: &[u16]) -> &[u16]
    ensures { (v : Bool) → each (legal mode v) result.now ≡ each (legal mode v) s.now }
{
    let mut left = s;
    while let Some((chunk, rest)) = left.split_first_chunk::<128>() {
        if !all_formed(mode, chunk) {
            return left;
        }
        left = rest;
    }
    left
}

// Each word may stand in the area. Mode and kind of line are asked once, and not of each word.
fn each_legal(mode: u8, variable: bool, s: &[u16]) -> bool
    ensures { result ≡ each (legal mode variable) s.now }
{
    match (mode, variable) {
        (8, false) => every(s, is_eight),
        (8, true) => every(s, is_eight_or_code),
        (_, false) => forms::all_data(s),
        (_, true) => every(s, is_nine_or_code),
    }
}

// Each word may stand in the area: what stands in its form is left out.
fn all_legal(mode: u8, variable: bool, s: &[u16]) -> bool
    ensures { result ≡ each (legal mode variable) s.now }
{
    each_legal(mode, variable, behind_formed(mode, s))
}

// What stands behind the area is its CRC with flag 01h, and nothing with any other.
fn end_stands(flag: u8, area: &[u16], end: &[u16]) -> bool
    ensures { result ≡ same end.now (end_words flag area.now) }
{
    if flag != 1 {
        return lists::same(end, &[0u16; 0]);
    }
    let c = sums::crc::crc_of(sums::crc::CRC_START, area);
    lists::same(end, &sums::crc::crc_words(c))
}

// The lowest of 15 and 16 that holds of an area and what stands behind it, or 0.
fn area_fault(mode: u8, variable: bool, flag: u8, area: &[u16], end: &[u16]) -> u8
    ensures { result ≡ lowest_of (area_faults mode variable flag area.now end.now) }
{
    let legal = all_legal(mode, variable, area);
    let formed = forms::all_data(end);
    let r16 = lists::or_else(!end_stands(flag, area, end), 16, 0);
    lists::or_else(!(legal & formed), 15, r16)
}

// The same of a line of the system's length, with that block type and flag.
pub(crate) fn payload_fault(s: System, mode: u8, block: u8, flag: u8, line: &[u16]) -> u8
    requires { (s.payload + 61 ≤ s.length) × (s.length ≡ length line.now) }
    ensures { result ≡ lowest_of (payload_faults s mode block flag line.now) }
{
    let start = s.length - s.payload;
    let end = start + layout::area_length(s.payload, flag);
    area_fault(
        mode,
        fixed::is_variable(block),
        flag,
        &line[start..end],
        &line[end..],
    )
}
