// The reading call. With no line begun it begins one or refuses it; later it goes on from the place in the line to a block, a
// drop or the line's end. Words of a begun line are not checked again.
ghost use Rattle.std.specs.Prelude.{◌≡◌, false, ◌+◌, ◌≤◌, length};
ghost use Rattle.line.specs.Systems.{system_of};
ghost use Rattle.line.specs.Fixed.{size_of};
ghost use Rattle.course.specs.Course.{blocks_end};
ghost use Rattle.machine.specs.Walk.{leaves};
ghost use Rattle.reader.specs.Events.{event_numbers};
ghost use Rattle.reader.specs.Numbers.{read_by};
ghost use Rattle.reader.specs.Reading.{reply, walk_from, told_by, goes_from, read_fault_in, reading_in, reading};
ghost use Rattle.reader.specs.Asking.{barred, asked};
ghost use Rattle.reader.specs.Within.{walk_to};

use crate::state::{Event, Reader, Told};
use crate::{begin, state};
use line::{check, fixed, systems};
use machine::phase;
use machine::phase::Phase;
use machine::step::Met;
use machine::walk::Walked;
use walks::{places, walk};

// What a call asks before it reads: the lower of 1 and 2 that holds, or 0; and then where blocks end in the line, and the size of a fixed
// block.
#[derive(Clone, Copy)]
pub struct Asked {
    pub fault: u8,
    pub end: usize,
    pub size: u16,
}

// A call that 1 or 2 refuses reads nothing.
fn barred(fault: u8) -> Asked
    ensures { result ≡ barred fault }
{
    Asked {
        fault,
        end: 0,
        size: 0,
    }
}

// Each test leaves, and the table of fixed blocks is looked up once, because a call of a fixed line moves few words.
#[tactic(auto, unfolding(crate::specs::Asking::asked, crate::specs::Reading::read_fault_in, crate::specs::State::impossible_in, lists::specs::Tests::pick))]
pub fn ask(capacity: usize, st: Reader, long: usize, room: usize) -> Asked
    ensures { result ≡ asked capacity st long room }
{
    if !(check::is_fit(st.system, st.mode, long) & (room == capacity)) {
        return barred(1);
    }
    let busy = phase::is_busy(st.phase);
    let x = course::look(st.system, st.last, st.settings, st.place, busy);
    if x.impossible {
        return barred(2);
    }
    if phase::is_misphased(capacity, st.phase) {
        return barred(2);
    }
    Asked {
        fault: 0,
        end: x.end,
        size: x.size,
    }
}

// The walk from place q to before another, which is no further than the end of the words in which blocks stand.
pub(crate) fn walk_from(
    st: Reader,
    end: usize,
    size: u16,
    q: usize,
    line: &[u16],
    room: &mut [u16],
) -> Walked
    requires { (st.place ≡ Some q) × (read_fault_in (length room.old) st (length line.now) (length room.old) ≡ 0) × (q ≤ end)
        × (end ≤ blocks_end (system_of st.system).payload st.settings.block st.settings.flag) × (size ≡ size_of st.settings.block) }
    ensures { leaves result room.new ≡ walk_to end st q line.now room.old }
{
    let s = systems::system_of(st.system);
    let a = s.length - s.payload;
    let e = a + end;
    let i = a + q;
    if fixed::is_variable(st.settings.block) {
        return walk::walk(st.mode, st.phase, &line[i..e], room);
    }
    places::walk_fixed(st.mode, st.phase, usize::from(size), &line[i..e], room)
}

// What the call tells of what was met, the place being q afterwards.
pub fn tell(st: Reader, q: usize, phase: Phase, met: Met) -> Told
    ensures { result ≡ told_by st q phase met }
{
    match met {
        Met::Nothing => Told {
            event: Event::End,
            state: Reader {
                place: None,
                phase,
                ..st
            },
        },
        Met::Whole { kind, length } => Told {
            event: Event::Block { kind, length },
            state: Reader {
                place: Some(q),
                phase,
                ..st
            },
        },
        Met::Lost { reason } => Told {
            event: Event::Drop { reason },
            state: Reader {
                place: Some(q),
                phase,
                ..st
            },
        },
    }
}

// Goes on from place q.
fn read_on(st: Reader, end: usize, size: u16, q: usize, line: &[u16], room: &mut [u16]) -> Told
    requires { (st.place ≡ Some q) × (read_fault_in (length room.old) st (length line.now) (length room.old) ≡ 0) × (1920 ≤ length room.old)
        × (end ≡ blocks_end (system_of st.system).payload st.settings.block st.settings.flag) × (size ≡ size_of st.settings.block) }
    ensures { reply result room.new ≡ goes_from st q (walk_from st q line.now room.old) }
{
    let x = walk_from(st, end, size, q, line, room);
    tell(st, q + x.taken, x.phase, x.met)
}

// A reading call of that capacity, in which every fixed block has room.
#[tactic(auto, using(crate::proofs::ReadLaws::own_capacity), unfolding(crate::specs::Reading::reading_in, crate::specs::Asking::asked, lists::specs::Tests::pick))]
fn read_in(capacity: usize, st: Reader, line: &[u16], room: &mut [u16]) -> Told
    requires { 1920 ≤ capacity }
    ensures { reply result room.new ≡ reading_in capacity st line.now room.old }
{
    let x = ask(capacity, st, line.len(), room.len());
    if x.fault != 0 {
        return Told {
            event: Event::Refused {
                answer: x.fault,
                dropped: false,
            },
            state: st,
        };
    }
    match st.place {
        None => begin::start(st, line),
        Some(q) => read_on(st, x.end, x.size, q, line, room),
    }
}

// A reading call; and the numbers of what it reports, by the state, the line and the room.
pub fn read(st: Reader, line: &[u16], room: &mut [u16]) -> Told
    ensures { (reply result room.new ≡ reading st line.now room.old)
        × (event_numbers result.event ≡ read_by st line.now room.old) }
{
    read_in(state::CAPACITY, st, line, room)
}
