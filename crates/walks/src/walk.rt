// The walk: the word machine over a lent part of an area, to the first report or to the part's end. A whole head, and words
// that report nothing, are taken at once.
ghost use Rattle.std.specs.Prelude.{◌≡◌, ◌<◌, true, length};
ghost use Rattle.words.specs.Modes.{value_of};
ghost use Rattle.machine.specs.Machine.{step_of};
ghost use Rattle.machine.specs.Phases.{phase_numbers};
ghost use Rattle.machine.specs.Walk.{leaves, collected_of, stored, walk_of};
ghost use Rattle.machine.specs.WalkNumbers.{numbers_of, walk_by};

use crate::pieces::Piece;
use crate::runs;
use machine::phase::Phase;
use machine::step::{Met, Step};
use machine::walk::Walked;
use machine::{phase, step, walk};
use words::{class, forms};

// The value of a word that is kept, into the room.
fn put_value<P: Piece>(keeps: bool, m: usize, v: u16, room: &mut [P])
    requires { keeps ≡ true → m < length (P.words room.old) }
    ensures { P.words room.new ≡ stored keeps m v (P.words room.old) }
{
    if keeps {
        P::put_word(room, m, v);
    }
}

// One word: what it does, and its value into the room if it is kept.
fn take_word<P: Piece>(mode: u8, phase: Phase, w: u16, room: &mut [P]) -> Step
    ensures { (result ≡ step_of mode (length (P.words room.old)) phase w)
        × (P.words room.new ≡ stored result.keeps (collected_of phase) (value_of mode w) (P.words room.old)) }
{
    let s = step::step_by(class::class_of(w), mode, P::count(room), phase, w);
    put_value(
        s.keeps,
        phase::collected_of(phase),
        forms::value_of(mode, w),
        room,
    );
    s
}

// The walk over words, for any phase and any room; and the numbers of the phase and of what was met.
pub fn walk<P: Piece>(mode: u8, phase: Phase, words: &[P], room: &mut [P]) -> Walked
    ensures { (leaves result (P.words room.new) ≡ walk_of mode phase (P.words words.now) (P.words room.old))
        × (numbers_of result ≡ walk_by mode (length (P.words room.old)) (phase_numbers phase) (P.words words.now)) }
{
    let n = P::count(words);
    let mut p = phase;
    let mut i = 0;
    while i < n {
        let head = P::take_head(p, P::part(words, i, n), P::count(room));
        i += head.taken;
        let ran = runs::take_run(mode, head.phase, P::part(words, i, n), room);
        i += ran.taken;
        if n <= i {
            return Walked {
                phase: ran.phase,
                met: Met::Nothing,
                taken: i,
            };
        }
        let s = take_word(mode, ran.phase, P::word_at(words, i), room);
        i += 1;
        p = s.phase;
        if !walk::is_nothing(s.met) {
            return Walked {
                phase: p,
                met: s.met,
                taken: i,
            };
        }
    }
    Walked {
        phase: p,
        met: Met::Nothing,
        taken: i,
    }
}
