// Words lent as bytes: two bytes a word, low byte first. No other file here writes a byte.
ghost use Rattle.octets.specs.Bytes.{words_of};

use crate::pieces::Piece;
use machine::phase::Phase;
use machine::runs::Ran;
use machine::{heads, runs};
use std::num;
use words::{class, forms};

impl Piece for u8 {
    ghost words = { words_of };

    fn count(pieces: &[u8]) -> usize {
        pieces.len() / 2
    }

    fn word_at(pieces: &[u8], i: usize) -> u16 {
        octets::word_at(pieces, i)
    }

    fn part(pieces: &[u8], a: usize, e: usize) -> &[u8] {
        &pieces[2 * a..2 * e]
    }

    fn put_word(pieces: &mut [u8], i: usize, w: u16) {
        pieces[2 * i] = (w % 256) as u8;
        pieces[2 * i + 1] = (w / 256) as u8;
    }

    fn copy_values(mode: u8, pieces: &[u8], m: usize, room: &mut [u8]) {
        for i in 0..pieces.len() / 2 {
            let v = forms::value_of(mode, octets::word_at(pieces, i));
            Self::put_word(room, m + i, v);
        }
    }

    // With no early exit the compiler takes many words at a time.
    fn has_null(pieces: &[u8]) -> bool {
        let mut found = false;
        for i in 0..pieces.len() / 2 {
            found |= class::is_null(octets::word_at(pieces, i));
        }
        found
    }

    // By the bits of what each word is above the first plain one, as of words. One loop serves both modes: a loop for each is slower here.
    fn all_plain(mode: u8, pieces: &[u8]) -> bool {
        let low = if mode == 8 { 0x101 } else { 0x100 };
        let mut bits = 0u16;
        for i in 0..pieces.len() / 2 {
            bits |= num::wrapping_sub_u16(octets::word_at(pieces, i), low);
        }
        bits < 0x200
    }

    fn ends_plain(_mode: u8, _i: usize, _pieces: &[u8]) -> bool {
        false
    }

    // Its six words are read, and asked as words are (machine's heads.rt).
    fn take_head(phase: Phase, pieces: &[u8], room: usize) -> Ran {
        if pieces.len() / 2 < 6 {
            return runs::took(phase, 0);
        }
        let six = [
            octets::word_at(pieces, 0),
            octets::word_at(pieces, 1),
            octets::word_at(pieces, 2),
            octets::word_at(pieces, 3),
            octets::word_at(pieces, 4),
            octets::word_at(pieces, 5),
        ];
        heads::take_head(phase, &six, room)
    }
}
