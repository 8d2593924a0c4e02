// Runs: words that a phase takes with no report, taken at once. Where a run ends is found first, and its values are copied in a loop
// of their own.
ghost use Rattle.std.specs.Prelude.{◌≡◌, ◌+◌, ◌≤◌, map, length, drop, ◌≢◌};
ghost use Rattle.std.proofs.Math.Seq.{paste};
ghost use Rattle.words.specs.Modes.{value_of};
ghost use Rattle.machine.specs.Runs.{run_of, taken_by, ran_phase, ran_room};

use crate::pieces::Piece;
use machine::phase::Phase;
use machine::runs;
use machine::runs::Ran;

// How many words stand in whole chunks of n before the first chunk that is not plain. Not `chunks_exact`: it would cut pieces, and n counts words.
fn run_by_chunks<P: Piece>(n: usize, mode: u8, words: &[P]) -> usize
    requires { 1 ≤ n }
    ensures { (result ≤ length (P.words words.now))
        × (result + run_of mode (drop result (P.words words.now)) ≡ run_of mode (P.words words.now)) }
{
    let long = P::count(words);
    let mut i = 0;
    while n <= long - i {
        if !P::all_plain(mode, P::part(words, i, i + n)) {
            return i;
        }
        i += n;
    }
    i
}

fn run_by_words<P: Piece>(mode: u8, words: &[P]) -> usize
    ensures { result ≡ run_of mode (P.words words.now) }
{
    let long = P::count(words);
    for i in 0..long {
        if runs::stops(mode, P::word_at(words, i)) {
            return i;
        }
    }
    long
}

// How many words stand before the first at which a run ends: 8 at a time, then one.
fn run_of_few<P: Piece>(mode: u8, words: &[P]) -> usize
    ensures { result ≡ run_of mode (P.words words.now) }
{
    let a = run_by_chunks(8, mode, words);
    a + run_by_words(mode, P::part(words, a, P::count(words)))
}

// The same, 32 at a time; then all that is left, and where the run ends in it 8 at a time.
fn run_of<P: Piece>(mode: u8, words: &[P]) -> usize
    ensures { result ≡ run_of mode (P.words words.now) }
{
    let long = P::count(words);
    let a = run_by_chunks(32, mode, words);
    if P::ends_plain(mode, a, words) {
        return long;
    }
    a + run_of_few(mode, P::part(words, a, long))
}

// The values of a run, into the room behind the m that it has.
fn put_run<P: Piece>(mode: u8, m: usize, words: &[P], room: &mut [P])
    requires { (length (P.words words.now) ≢ 0) → m + length (P.words words.now) ≤ length (P.words room.old) }
    ensures { P.words room.new
        ≡ paste (P.words room.old) m (map (value_of mode) (P.words words.now)) (length (P.words words.now)) }
{
    if P::count(words) == 0 {
        return;
    }
    P::copy_values(mode, words, m, room);
}

// A run of words that the phase takes with no report. Where it ends is asked at one place, so that the compiler puts the loops into the walk.
pub(crate) fn take_run<P: Piece>(mode: u8, phase: Phase, words: &[P], room: &mut [P]) -> Ran
    ensures { (result.taken ≡ taken_by mode phase (length (P.words room.old)) (P.words words.now))
        × (result.phase ≡ ran_phase phase result.taken)
        × (P.words room.new ≡ ran_room mode phase (P.words words.now) result.taken (P.words room.old)) }
{
    let long = P::count(room);
    let most = runs::most_of(phase, P::count(words), long);
    let k = run_of(mode, P::part(words, 0, most));
    match phase {
        Phase::Data { collected, .. } => {
            put_run(mode, collected, P::part(words, 0, k), room);
            runs::behind(phase, long, k)
        }
        _ => runs::took(phase, k),
    }
}
