// Words lent as they are.
ghost use Rattle.std.specs.Prelude.{◌≡◌, ◌≤◌, [], ◌∷◌};
ghost use Rattle.lists.specs.Lists.{each};
ghost use Rattle.machine.specs.Runs.{is_from};
ghost use Rattle.machine.specs.Places.{has_null};

use crate::pieces::Piece;
use machine::heads;
use machine::phase::Phase;
use machine::runs::Ran;
use std::num;
use words::{class, forms};

// Every word is one of the 200h from low on. What each is above low is below 200h, or wraps and is not; so the bits of all are gathered, which the compiler
// does many words at a time, and asked once.
fn all_from(low: u16, words: &[u16]) -> bool
    requires { low ≤ 0x101 }
    ensures { result ≡ each (is_from low) words.now }
{
    let mut bits = 0u16;
    for w in words {
        bits |= num::wrapping_sub_u16(*w, low);
    }
    bits < 0x200
}

// 100h stands among four words.
fn has_null_four(a: u16, b: u16, c: u16, d: u16) -> bool
    ensures { result ≡ has_null (a ∷ b ∷ c ∷ d ∷ []) }
{
    (class::is_null(a) | class::is_null(b)) | (class::is_null(c) | class::is_null(d))
}

fn has_null_each(words: &[u16]) -> bool
    ensures { result ≡ has_null words.now }
{
    let mut found = false;
    for w in words {
        found |= class::is_null(*w);
    }
    found
}

impl Piece for u16 {
    ghost words = { λ s. s };

    fn count(pieces: &[u16]) -> usize {
        pieces.len()
    }

    fn word_at(pieces: &[u16], i: usize) -> u16 {
        pieces[i]
    }

    fn part(pieces: &[u16], a: usize, e: usize) -> &[u16] {
        &pieces[a..e]
    }

    fn put_word(pieces: &mut [u16], i: usize, w: u16) {
        pieces[i] = w;
    }

    fn copy_values(mode: u8, pieces: &[u16], m: usize, room: &mut [u16]) {
        let e = m + pieces.len();
        let out = &mut room[m..e];
        for (i, o) in out.iter_mut().enumerate() {
            *o = forms::value_of(mode, pieces[i]);
        }
    }

    // Four at a time, because most fixed blocks have few values.
    fn has_null(pieces: &[u16]) -> bool {
        let mut i = 0;
        while 4 <= pieces.len() - i {
            if has_null_four(pieces[i], pieces[i + 1], pieces[i + 2], pieces[i + 3]) {
                return true;
            }
            i += 4;
        }
        has_null_each(&pieces[i..])
    }

    // Each mode has a loop of its own, with the first plain word as a constant.
    fn all_plain(mode: u8, pieces: &[u16]) -> bool {
        if mode == 8 {
            return all_from(0x101, pieces);
        }
        all_from(0x100, pieces)
    }

    // The last 32 words are plain, and the run is known to reach them: then it reaches the end.
    fn ends_plain(mode: u8, i: usize, pieces: &[u16]) -> bool {
        if pieces.len() < 32 {
            return false;
        }
        let last = pieces.len() - 32;
        if i < last {
            return false;
        }
        Self::all_plain(mode, &pieces[last..])
    }

    fn take_head(phase: Phase, pieces: &[u16], room: usize) -> Ran {
        heads::take_head(phase, pieces, room)
    }
}
