// Heads: 309h, the type word and the four count words, taken at once where all six stand in the words and lead to data. The machine's own six
// steps do the same; every other head goes by them.
ghost use Rattle.std.specs.Prelude.{◌≡◌, ◌%◌, ◌≤◌, ◌<◌, length, IsTrue, fold, ◌&&◌, true};
ghost use Rattle.lists.specs.Lists.{each};
ghost use Rattle.words.specs.Forms.{is_byte};
ghost use Rattle.machine.specs.Heads.{count_at, head_stands, head_taken, head_phase};

use crate::phase::{Mark, Phase};
use crate::runs::Ran;
use crate::{phase, runs};
use words::{class, forms};

// The low eight bits of a word.
fn low_of(w: u16) -> u8
    ensures { result ≡ w % 256 }
{
    (w % 256) as u8
}

// The count that the words of a head spell.
fn count_at(head: &[u16]) -> usize
    requires { 6 ≤ length head.now }
    ensures { result ≡ count_at head.now }
{
    u32::from_le_bytes([
        low_of(head[2]),
        low_of(head[3]),
        low_of(head[4]),
        low_of(head[5]),
    ]) as usize
}

// Each word is in byte form.
fn all_byte(words: &[u16]) -> bool
    ensures { result ≡ fold (λ ok w. ok && is_byte w) true words.now }
{
    words.iter().fold(true, |ok, w| ok & forms::is_byte(*w))
}

// A whole head stands in front: 309h, five words in byte form, and a count that is at most the room's length.
#[tactic(auto, using(crate::proofs::HeadLaws::folded_each), unfolding(crate::specs::Heads::head_stands, lists::specs::Tests::pick))]
fn stands(words: &[u16], room: usize) -> bool
    ensures is { result ≡ head_stands room words.now }
    ensures long { IsTrue result → 6 ≤ length words.now }
{
    if words.len() < 6 {
        return false;
    }
    if words[0] != class::SEPARATOR {
        return false;
    }
    all_byte(&words[1..6]) & (count_at(words) <= room)
}

// The head in front, if the phase is idle and a whole one stands there; else no word.
#[tactic(auto, unfolding(crate::specs::Heads::head_of, lists::specs::Tests::pick))]
pub fn take_head(phase: Phase, words: &[u16], room: usize) -> Ran
    ensures { (result.taken ≡ head_taken room phase words.now) × (result.phase ≡ head_phase room phase words.now) }
{
    if phase::is_busy(phase) || !stands(words, room) {
        return runs::took(phase, 0);
    }
    let next = Phase::Data {
        mark: Mark::Typed(low_of(words[1])),
        announced: count_at(words),
        collected: 0,
    };
    runs::took(next, 6)
}
