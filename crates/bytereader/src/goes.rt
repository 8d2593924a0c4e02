// A call on a begun line: what it asks, the walk from the place in the line, and what is told of it.
ghost use Rattle.std.specs.Prelude.{◌≡◌, ◌&&◌, ◌+◌, ◌/◌, ◌%◌, ◌≤◌, eqb, length};
ghost use Rattle.lists.specs.Tests.{pick};
ghost use Rattle.octets.specs.Bytes.{words_of};
ghost use Rattle.line.specs.Systems.{system_of};
ghost use Rattle.line.specs.Fixed.{size_of};
ghost use Rattle.course.specs.Course.{blocks_end};
ghost use Rattle.machine.specs.Walk.{leaves};
ghost use Rattle.reader.specs.State.{capacity};
ghost use Rattle.reader.specs.Reading.{read_fault};
ghost use Rattle.reader.specs.Asking.{barred, asked};
ghost use Rattle.bytereader.specs.Calls.{event_by, place_by, went_of};
ghost use Rattle.reader.specs.Within.{sliced, unit_of, walk_to, walk_within, goes_within};

use line::{fixed, systems};
use machine::phase::Phase;
use machine::step::Met;
use machine::walk::Walked;
use reader::read::Asked;
use reader::state::{Event, Reader};
use reader::within::Report;
use reader::{read, state};
use walks::{places, walk};

// What a call on a begun line changes: what it reports and how much it consumed, the place and the phase.
#[derive(Clone, Copy)]
pub struct Went {
    pub report: Report,
    pub consumed: usize,
    pub place: Option<usize>,
    pub phase: Phase,
}

// What a call asks before it reads, by the numbers of bytes: 1 also where one is odd.
pub(crate) fn ask(st: Reader, line: usize, room: usize) -> Asked
    ensures { result ≡ pick (eqb (line % 2) 0 && eqb (room % 2) 0) (asked capacity st (line / 2) (room / 2)) (barred 1) }
{
    if (line % 2 == 0) & (room % 2 == 0) {
        return read::ask(state::CAPACITY, st, line / 2, room / 2);
    }
    Asked {
        fault: 1,
        end: 0,
        size: 0,
    }
}

// The walk from place q to before another, which is no further than the end of the words in which blocks stand.
fn walk_from(st: Reader, end: usize, size: u16, q: usize, line: &[u8], room: &mut [u8]) -> Walked
    requires { (st.place ≡ Some q) × (read_fault st (length (words_of line.now)) (length (words_of room.old)) ≡ 0) × (q ≤ end)
        × (end ≤ blocks_end (system_of st.system).payload st.settings.block st.settings.flag) × (size ≡ size_of st.settings.block) }
    ensures { leaves result (words_of room.new) ≡ walk_to end st q (words_of line.now) (words_of room.old) }
{
    let s = systems::system_of(st.system);
    let a = s.length - s.payload;
    let i = 2 * (a + q);
    let e = 2 * (a + end);
    if fixed::is_variable(st.settings.block) {
        return walk::walk(st.mode, st.phase, &line[i..e], room);
    }
    places::walk_fixed(st.mode, st.phase, usize::from(size), &line[i..e], room)
}

// The words that count as one.
fn unit_of(block: u8, size: u16) -> usize
    requires { size ≡ size_of block }
    ensures { result ≡ unit_of block }
{
    if fixed::is_variable(block) {
        return 1;
    }
    usize::from(size)
}

// What a call on a begun line tells of what was met.
fn event_by(met: Met) -> Event
    ensures { result ≡ event_by met }
{
    match met {
        Met::Nothing => Event::End,
        Met::Whole { kind, length } => Event::Block { kind, length },
        Met::Lost { reason } => Event::Drop { reason },
    }
}

// The place afterwards, q unless the line has ended.
fn place_by(met: Met, q: usize) -> Option<usize>
    ensures { result ≡ place_by met q }
{
    match met {
        Met::Nothing => None,
        Met::Whole { .. } | Met::Lost { .. } => Some(q),
    }
}

// Goes on from place q, as far as the allowance lets. Only what changes is given back: a state is long, and most calls move few words.
pub(crate) fn go_on(
    st: Reader,
    allowance: usize,
    end: usize,
    size: u16,
    q: usize,
    line: &[u8],
    room: &mut [u8],
) -> Went
    requires { (st.place ≡ Some q) × (read_fault st (length (words_of line.now)) (length (words_of room.old)) ≡ 0)
        × (end ≡ blocks_end (system_of st.system).payload st.settings.block st.settings.flag) × (size ≡ size_of st.settings.block) }
    ensures { sliced (went_of st result) (words_of room.new)
        ≡ goes_within allowance st q (walk_within allowance st q (words_of line.now) (words_of room.old)) }
{
    let unit = unit_of(st.settings.block, size);
    let far = q + allowance.min((end - q) / unit) * unit;
    let x = walk_from(st, far, size, q, line, room);
    let next = q + x.taken;
    let consumed = x.taken / unit;
    if machine::walk::is_nothing(x.met) & (consumed == allowance) {
        return Went {
            report: Report::Paused,
            consumed,
            place: Some(next),
            phase: x.phase,
        };
    }
    Went {
        report: Report::Told(event_by(x.met)),
        consumed,
        place: place_by(x.met, next),
        phase: x.phase,
    }
}
