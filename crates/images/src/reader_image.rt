// The reader's state as 80 bytes, and back.
ghost use Rattle.std.specs.Prelude.{◌≡◌, ◌&&◌, ◌++◌, eqb, length, get_or};
ghost use Rattle.lists.specs.Lists.{same};
ghost use Rattle.lists.specs.Tests.{pick};
ghost use Rattle.fields.specs.Frame.{held_in};
ghost use Rattle.images.specs.ReaderImage.{mark_bytes, mark_by, phase_byte, count_bytes, phase_bytes, phase_by, phase_in, image_of, state_of, is_image, stand_bytes, moved};
ghost use Rattle.images.specs.Held.{HeldReader};

use fields::{frame, numbers};
use line::settings;
use machine::phase::{Mark, Phase};
use reader::state::Reader;

// Whose image it is: R.
const TAG: u8 = 0x52;

// What is held of a block: the mark and the type; the count bytes so far; the count announced and the number collected.
#[derive(Clone, Copy)]
struct Counts {
    mark: [u8; 2],
    b0: u8,
    b1: u8,
    b2: u8,
    announced: usize,
    collected: usize,
}

// The mark and the type.
fn mark_bytes(mark: Mark) -> [u8; 2]
    ensures { (result ≡ mark_bytes mark) × (length result ≡ 2) }
{
    match mark {
        Mark::Typed(k) => [1, k],
        Mark::Nulled => [2, 0],
    }
}

// The mark by its number: what is no mark's number is one all the same, and so no image.
fn mark_by(n: u8, k: u8) -> Mark
    ensures { result ≡ mark_by n k }
{
    if n < 2 { Mark::Typed(k) } else { Mark::Nulled }
}

// The number of the phase.
fn phase_byte(phase: Phase) -> u8
    ensures { result ≡ phase_byte phase }
{
    match phase {
        Phase::Idle => 0,
        Phase::Kind => 1,
        Phase::First { .. } => 2,
        Phase::Second { .. } => 3,
        Phase::Third { .. } => 4,
        Phase::Fourth { .. } => 5,
        Phase::Data { .. } => 6,
    }
}

// What the phase holds; 0 where it holds nothing. It is one value, so that the bytes are laid in one place.
fn counted_of(phase: Phase) -> Counts
    ensures { (result.mark ++ count_bytes result.b0 result.b1 result.b2 result.announced result.collected ≡ phase_bytes phase) × (length result.mark ≡ 2) }
{
    let none = Counts {
        mark: [0, 0],
        b0: 0,
        b1: 0,
        b2: 0,
        announced: 0,
        collected: 0,
    };
    match phase {
        Phase::Idle | Phase::Kind => none,
        Phase::First { mark } => Counts {
            mark: mark_bytes(mark),
            ..none
        },
        Phase::Second { mark, b0 } => Counts {
            mark: mark_bytes(mark),
            b0,
            ..none
        },
        Phase::Third { mark, b0, b1 } => Counts {
            mark: mark_bytes(mark),
            b0,
            b1,
            ..none
        },
        Phase::Fourth { mark, b0, b1, b2 } => Counts {
            mark: mark_bytes(mark),
            b0,
            b1,
            b2,
            ..none
        },
        Phase::Data {
            mark,
            announced,
            collected,
        } => Counts {
            mark: mark_bytes(mark),
            announced,
            collected,
            ..none
        },
    }
}

// The 21 bytes of what the phase holds.
#[tactic(auto, using(fields::proofs::PartLaws::two_of), unfolding(lists::specs::Tests::pick))]
fn put_phase(phase: Phase, out: &mut [u8])
    requires { length out.old ≡ 21 }
    ensures { out.new ≡ phase_bytes phase }
{
    let x = counted_of(phase);
    let (front, counts) = out.split_at_mut(5);
    front.copy_from_slice(&[x.mark[0], x.mark[1], x.b0, x.b1, x.b2]);
    numbers::put_eights(x.announced, x.collected, counts);
}

// What a call on a begun line changes: the place and the phase.
#[tactic(auto, unfolding(lists::specs::Tests::pick))]
fn put_stand(place: Option<usize>, phase: Phase, out: &mut [u8])
    requires { length out.old ≡ 31 }
    ensures { out.new ≡ stand_bytes place phase }
{
    let (front, held) = out.split_at_mut(10);
    frame::put_place(place, phase_byte(phase), front);
    put_phase(phase, held);
}

// The image of a state, into 80 bytes, and else nothing.
#[tactic(auto, unfolding(lists::specs::Tests::pick, crate::specs::ReaderImage::image_of, fields::specs::Frame::framed))]
pub fn put_image(st: Reader, out: &mut [u8])
    ensures { out.new ≡ pick (eqb (length out.old) 80) (image_of st) out.old }
{
    if out.len() != 80 {
        return;
    }
    let (front, rest) = out.split_at_mut(6);
    let (stand, foot) = rest.split_at_mut(31);
    frame::put_front(TAG, st.system, st.mode, st.last, front);
    put_stand(st.place, st.phase, stand);
    frame::put_foot(st.settings, foot);
}

// Another place and another phase, into an image of 80 bytes, and else nothing.
#[tactic(auto, unfolding(lists::specs::Tests::pick, crate::specs::ReaderImage::moved))]
pub fn put_moved(place: Option<usize>, phase: Phase, out: &mut [u8])
    ensures { out.new ≡ pick (eqb (length out.old) 80) (moved place phase out.old) out.old }
{
    if out.len() != 80 {
        return;
    }
    put_stand(place, phase, &mut out[6..37]);
}

// The phase by its number, its mark and the bytes held.
#[tactic(auto, unfolding(lists::specs::Tests::pick))]
fn phase_by(n: u8, mark: Mark, h: &[u8; 21]) -> Phase
    ensures { result ≡ phase_by n mark h.now }
{
    match n {
        1 => Phase::Kind,
        2 => Phase::First { mark },
        3 => Phase::Second { mark, b0: h[2] },
        4 => Phase::Third {
            mark,
            b0: h[2],
            b1: h[3],
        },
        5 => Phase::Fourth {
            mark,
            b0: h[2],
            b1: h[3],
            b2: h[4],
        },
        6 => Phase::Data {
            mark,
            announced: numbers::number_in(&h[5..13]),
            collected: numbers::number_in(&h[13..21]),
        },
        _ => Phase::Idle,
    }
}

// The phase in an image.
#[tactic(auto, unfolding(crate::specs::ReaderImage::phase_in))]
fn phase_in(b: &[u8; 80]) -> Phase
    ensures { result ≡ phase_in b.now }
{
    let held = frame::held_in(b);
    phase_by(b[7], mark_by(held[0], held[1]), &held)
}

// What 80 bytes spell: a state, and whether the bytes are its image. Not an `Option`: the state is promised of any bytes.
#[derive(Clone, Copy)]
pub struct Spelt {
    pub state: Reader,
    pub image: bool,
}

// The bytes of a phase stand in an image.
fn shows_phase(phase: Phase, b: &[u8; 80]) -> bool
    ensures { result ≡ (eqb (get_or b.now 7 0) (phase_byte phase) && same (held_in b.now) (phase_bytes phase)) }
{
    let x = counted_of(phase);
    let announced = numbers::number_in(&b[21..29]) == x.announced;
    let collected = numbers::number_in(&b[29..37]) == x.collected;
    let counts = (b[18] == x.b0) & ((b[19] == x.b1) & ((b[20] == x.b2) & (announced & collected)));
    (b[7] == phase_byte(phase)) & ((b[16] == x.mark[0]) & ((b[17] == x.mark[1]) & counts))
}

// The state that bytes spell, whatever they are; and an image is what a state gives: the state that it spells gives it again.
pub fn read_image(b: &[u8; 80]) -> Spelt
    ensures { (result.state ≡ state_of b.now) × (result.image ≡ is_image b.now) }
{
    let last = frame::last_in(b);
    let settings = frame::settings_in(b);
    let place = frame::place_in(b);
    let phase = phase_in(b);
    let image = frame::shows_frame(TAG, last, place, b) & shows_phase(phase, b);
    let state = Reader {
        system: b[1],
        mode: b[2],
        last,
        settings,
        place,
        phase,
    };
    Spelt { state, image }
}

// The same state. What it ensures is what every value of the type holds.
pub fn held_reader(st: Reader) -> Reader
    ensures { (result ≡ st) × HeldReader result }
{
    settings::held(st.settings);
    st
}
