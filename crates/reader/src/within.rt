// The reading call under an allowance of area words. It lends the walk no more of the line than the allowance lets, so that it looks at no
// word beyond. In a fixed line each place counts as one.
ghost use Rattle.std.specs.Prelude.{◌≡◌, ◌+◌, ◌-◌, ◌*◌, ◌/◌, ◌≤◌, min, length};
ghost use Rattle.line.specs.Systems.{system_of};
ghost use Rattle.line.specs.Fixed.{size_of};
ghost use Rattle.course.specs.Course.{blocks_end};
ghost use Rattle.reader.specs.Reading.{read_fault_in};
ghost use Rattle.reader.specs.Within.{sliced, paused_at, tells, unit_of, walk_within, goes_within, within_in, within, report_numbers, within_by};

use crate::state::{Event, Reader, Told};
use crate::{begin, read, state};
use line::fixed;
use machine::walk;

// Paused stands around the event: it is no event of the line. Not an `Option`: a pause says that the call comes again, and a name says so more plainly.
#[derive(Clone, Copy)]
pub enum Report {
    Paused,
    Told(Event),
}

// What a call answers: the report, how many words (fixed: places) it consumed, and the state afterwards.
#[derive(Clone, Copy)]
pub struct Within {
    pub report: Report,
    pub consumed: usize,
    pub state: Reader,
}

pub fn paused(consumed: usize, st: Reader) -> Within
    ensures { result ≡ paused_at consumed st }
{
    Within {
        report: Report::Paused,
        consumed,
        state: st,
    }
}

// What a reading call tells, and what it consumed.
pub fn tells(consumed: usize, t: Told) -> Within
    ensures { result ≡ tells consumed t }
{
    Within {
        report: Report::Told(t.event),
        consumed,
        state: t.state,
    }
}

// The words that count as one.
#[tactic(auto, unfolding(crate::specs::Within::unit_of, lists::specs::Tests::pick))]
fn unit_of(block: u8, size: u16) -> usize
    requires { size ≡ size_of block }
    ensures { result ≡ unit_of block }
{
    if fixed::is_variable(block) {
        return 1;
    }
    usize::from(size)
}

// Goes on from place q, as far as the allowance lets.
fn go_on(
    st: Reader,
    allowance: usize,
    end: usize,
    size: u16,
    q: usize,
    line: &[u16],
    room: &mut [u16],
) -> Within
    requires { (st.place ≡ Some q) × (read_fault_in (length room.old) st (length line.now) (length room.old) ≡ 0) × (1920 ≤ length room.old)
        × (end ≡ blocks_end (system_of st.system).payload st.settings.block st.settings.flag) × (size ≡ size_of st.settings.block) }
    ensures { sliced result room.new ≡ goes_within allowance st q (walk_within allowance st q line.now room.old) }
{
    let unit = unit_of(st.settings.block, size);
    let far = q + allowance.min((end - q) / unit) * unit;
    let x = read::walk_from(st, far, size, q, line, room);
    let next = q + x.taken;
    let consumed = x.taken / unit;
    if walk::is_nothing(x.met) & (consumed == allowance) {
        let state = Reader {
            place: Some(next),
            phase: x.phase,
            ..st
        };
        return paused(consumed, state);
    }
    tells(consumed, read::tell(st, next, x.phase, x.met))
}

// A reading call of that capacity, in which every fixed block has room.
#[tactic(auto, using(crate::proofs::ReadLaws::own_capacity), unfolding(crate::specs::Within::within_in, crate::specs::Asking::asked, lists::specs::Tests::pick))]
fn read_within_in(
    capacity: usize,
    st: Reader,
    allowance: usize,
    line: &[u16],
    room: &mut [u16],
) -> Within
    requires { 1920 ≤ capacity }
    ensures { sliced result room.new ≡ within_in capacity allowance st line.now room.old }
{
    let x = read::ask(capacity, st, line.len(), room.len());
    if x.fault != 0 {
        return Within {
            report: Report::Told(Event::Refused {
                answer: x.fault,
                dropped: false,
            }),
            consumed: 0,
            state: st,
        };
    }
    if allowance == 0 {
        return paused(0, st);
    }
    match st.place {
        None => tells(0, begin::start(st, line)),
        Some(q) => go_on(st, allowance, x.end, x.size, q, line, room),
    }
}

// A reading call under an allowance; and the numbers of what it reports, by the allowance, the state, the line and the room.
pub fn read_within(st: Reader, allowance: usize, line: &[u16], room: &mut [u16]) -> Within
    ensures { (sliced result room.new ≡ within allowance st line.now room.old)
        × (report_numbers result.report ≡ within_by allowance st line.now room.old) }
{
    read_within_in(state::CAPACITY, st, allowance, line, room)
}
