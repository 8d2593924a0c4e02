// The pieces in which words are lent: a word each, or two bytes a word. A walk asks its words of this trait alone; each kind of piece has its own loops,
// for speed.
ghost use Rattle.std.specs.Prelude.{◌≡◌, ℕ, ◌+◌, ◌-◌, ◌<◌, ◌≤◌, true, List, map, length, take, drop, get_or, slice_set};
ghost use Rattle.std.proofs.Math.Seq.{paste};
ghost use Rattle.lists.specs.Lists.{each};
ghost use Rattle.words.specs.Modes.{value_of};
ghost use Rattle.machine.specs.Runs.{plain_by, run_of};
ghost use Rattle.machine.specs.Heads.{head_taken, head_phase};
ghost use Rattle.machine.specs.Places.{has_null};

use machine::phase::Phase;
use machine::runs::Ran;

pub trait Piece: Copy {
    // The words that pieces spell.
    ghost words: { List Self → List ℕ };

    // How many words there are.
    fn count(pieces: &[Self]) -> usize
        ensures { result ≡ length (words pieces.now) };

    // Word i.
    fn word_at(pieces: &[Self], i: usize) -> u16
        requires { i < length (words pieces.now) }
        ensures { result ≡ get_or (words pieces.now) i 0 };

    // The words from a on, to before e.
    fn part(pieces: &[Self], a: usize, e: usize) -> &[Self]
        requires { (a ≤ e) × (e ≤ length (words pieces.now)) }
        ensures { words result.now ≡ take (e - a) (drop a (words pieces.now)) };

    // A word put at a place.
    fn put_word(pieces: &mut [Self], i: usize, w: u16)
        requires { i < length (words pieces.old) }
        ensures { words pieces.new ≡ slice_set (words pieces.old) i w };

    // The values of words, into the room from m on.
    fn copy_values(mode: u8, pieces: &[Self], m: usize, room: &mut [Self])
        requires { m + length (words pieces.now) ≤ length (words room.old) }
        ensures { words room.new
            ≡ paste (words room.old) m (map (value_of mode) (words pieces.now)) (length (words pieces.now)) };

    // 100h stands among the words.
    fn has_null(pieces: &[Self]) -> bool
        ensures { result ≡ has_null (words pieces.now) };

    // Every word is plain.
    fn all_plain(mode: u8, pieces: &[Self]) -> bool
        ensures { result ≡ each (plain_by mode) (words pieces.now) };

    // What whole chunks leave over, from word i on, is a run to the end, and that is seen at once. Where it is not asked at once, false.
    fn ends_plain(mode: u8, i: usize, pieces: &[Self]) -> bool
        ensures { result ≡ true → i ≤ length (words pieces.now)
            → i + run_of mode (drop i (words pieces.now)) ≡ length (words pieces.now) };

    // The head in front, if the phase is idle and a whole one stands there; else no word.
    fn take_head(phase: Phase, pieces: &[Self], room: usize) -> Ran
        ensures { (result.taken ≡ head_taken room phase (words pieces.now))
            × (result.phase ≡ head_phase room phase (words pieces.now)) };
}
