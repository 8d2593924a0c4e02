// Fixed lines: place after place, to the first report or to the last place.
ghost use Rattle.std.specs.Prelude.{◌≡◌, ◌-◌, ◌/◌, ◌≤◌, ◌&&◌, map, length, ◌==◌};
ghost use Rattle.words.specs.Modes.{value_of};
ghost use Rattle.machine.specs.Phases.{phase_numbers};
ghost use Rattle.machine.specs.declared.phase.Phase.{Phase};
ghost use Rattle.machine.specs.Walk.{leaves, walked_to};
ghost use Rattle.machine.specs.WalkNumbers.{numbers_of, fixed_by};
ghost use Rattle.machine.specs.Places.{places_in, has_null, met_at, place_room, walk_places, walk_fixed};

use crate::pieces::Piece;
use machine::phase::Phase;
use machine::step::Met;
use machine::walk;
use machine::walk::Walked;
use words::{class, forms};

// The data are no values: 100h stands among them, in 8-bit mode.
fn is_void<P: Piece>(mode: u8, words: &[P]) -> bool
    ensures { result ≡ (mode == 8 && has_null (P.words words.now)) }
{
    (mode == 8) && P::has_null(words)
}

// What a place reports, its type word first: nothing where it is a null or empty. Of a type word that is not in byte form, which is rare, the table
// says whether it is 100h.
fn met_at<P: Piece>(mode: u8, place: &[P]) -> Met
    requires { 1 ≤ length (P.words place.now) }
    ensures { result ≡ met_at mode (P.words place.now) }
{
    let w = P::word_at(place, 0);
    if !forms::is_byte(w) {
        if class::bit_of(w) == class::NULL_BIT {
            return Met::Nothing;
        }
        return Met::Lost { reason: 2 };
    }
    let kind = (w % 256) as u8;
    if kind == 0 {
        return Met::Nothing;
    }
    let n = P::count(place);
    if is_void(mode, P::part(place, 1, n)) {
        return Met::Lost { reason: 7 };
    }
    Met::Whole {
        kind,
        length: n - 1,
    }
}

// A block's values into the room, from 0.
fn put_place<P: Piece>(mode: u8, met: Met, words: &[P], room: &mut [P])
    requires { length (P.words words.now) ≤ length (P.words room.old) }
    ensures { P.words room.new ≡ place_room met (map (value_of mode) (P.words words.now)) (P.words room.old) }
{
    if let Met::Whole { .. } = met {
        P::copy_values(mode, words, 0, room);
    }
}

// What a walk over places meets, and how many words it takes. The phase is no part of it: handed through, it would be moved in each call.
#[derive(Clone, Copy)]
struct Seen {
    met: Met,
    taken: usize,
}

// The walk over places of that size, as long as a whole one is left. It counts no places, so that no call divides;
// nor does it cut by `chunks_exact`, which would cut pieces where the size counts words.
fn see_all<P: Piece>(mode: u8, size: usize, words: &[P], room: &mut [P]) -> Seen
    requires { (1 ≤ size) × (size - 1 ≤ length (P.words room.old)) }
    ensures { (p : Phase) → walked_to p result.met result.taken (P.words room.new)
        ≡ walk_places mode p (places_in size (length (P.words words.now) / size) (P.words words.now)) (P.words room.old) }
{
    let long = P::count(words);
    let mut i = 0;
    while size <= long - i {
        let e = i + size;
        let met = met_at(mode, P::part(words, i, e));
        if !walk::is_nothing(met) {
            put_place(mode, met, P::part(words, i + 1, e), room);
            return Seen { met, taken: e };
        }
        i = e;
    }
    Seen {
        met: Met::Nothing,
        taken: i,
    }
}

// The place in front is asked before the loop, because most calls end with it. Words behind the last whole place are not looked at.
fn see_places<P: Piece>(mode: u8, size: usize, words: &[P], room: &mut [P]) -> Seen
    ensures { (p : Phase) → walked_to p result.met result.taken (P.words room.new)
        ≡ walk_fixed mode p size (P.words words.now) (P.words room.old) }
{
    let none = Seen {
        met: Met::Nothing,
        taken: 0,
    };
    if (size == 0) | (P::count(room) < size.saturating_sub(1)) {
        return none;
    }
    if P::count(words) < size {
        return none;
    }
    let met = met_at(mode, P::part(words, 0, size));
    if walk::is_nothing(met) {
        return see_all(mode, size, words, room);
    }
    put_place(mode, met, P::part(words, 1, size), room);
    Seen { met, taken: size }
}

// The walk over places of that size, for any phase, size, words and room; and its numbers.
pub fn walk_fixed<P: Piece>(
    mode: u8,
    phase: Phase,
    size: usize,
    words: &[P],
    room: &mut [P],
) -> Walked
    ensures { (leaves result (P.words room.new) ≡ walk_fixed mode phase size (P.words words.now) (P.words room.old))
        × (numbers_of result ≡ fixed_by mode (length (P.words room.old)) (phase_numbers phase) size (P.words words.now)) }
{
    let x = see_places(mode, size, words, room);
    Walked {
        phase,
        met: x.met,
        taken: x.taken,
    }
}
