// The call that begins a line: it checks the line and reads no word of its area.
ghost use Rattle.std.specs.Prelude.{◌≡◌, ◌&&◌, not};
ghost use Rattle.line.specs.Systems.{system_of};
ghost use Rattle.line.specs.Check.{checked_of};
ghost use Rattle.reader.specs.Jump.{jump_from};
ghost use Rattle.reader.specs.Events.{event_numbers};
ghost use Rattle.reader.specs.Reading.{refused, goes_on, begun, starts};
ghost use Rattle.reader.specs.Numbers.{jump_by, is_open, refused_by, begun_by, start_by};

use crate::state::{Event, Reader, Told};
use crate::{jump, state};
use line::settings::Settings;
use line::{settings, systems};
use linecheck::check;
use machine::phase;
use machine::phase::Phase;

// A line with a fault: an open block is dropped, and the last number is forgotten. Each of the three says the numbers of its event beside it.
pub fn refuse(st: Reader, fault: u8) -> Told
    ensures { (result ≡ refused st fault) × (event_numbers result.event ≡ refused_by fault (is_open st.phase)) }
{
    Told {
        event: Event::Refused {
            answer: fault,
            dropped: phase::is_busy(st.phase),
        },
        state: Reader {
            last: None,
            place: None,
            phase: Phase::Idle,
            ..st
        },
    }
}

// The jump to a line of that number.
fn jump_to(st: Reader, n: u16) -> Option<i32>
    ensures { result ≡ jump_from (system_of st.system).lines st.last n }
{
    jump::jump_from(systems::system_of(st.system).lines, st.last, n)
}

// An open block goes on over a jump of 0 with equal settings.
#[tactic(auto, unfolding(crate::specs::Reading::goes_on))]
fn goes_on(st: Reader, n: u16, t: Settings) -> bool
    ensures { result ≡ goes_on st n t }
{
    jump::is_zero(jump_to(st, n)) & settings::same_settings(t, st.settings)
}

// A line without fault.
#[tactic(auto, unfolding(crate::specs::Reading::begun, lists::specs::Tests::pick))]
pub fn begin_line(st: Reader, n: u16, t: Settings) -> Told
    ensures { (result ≡ begun st n t)
        × (event_numbers result.event ≡ begun_by n (is_open st.phase && not (goes_on st n t)) (jump_by (system_of st.system).lines st.last n)) }
{
    let goes = goes_on(st, n, t);
    let phase = if goes { st.phase } else { Phase::Idle };
    Told {
        event: Event::Begun {
            number: n,
            jump: jump_to(st, n),
            dropped: phase::is_busy(st.phase) & !goes,
        },
        state: state::becomes(st, Some(n), t, Some(0), phase),
    }
}

// The line check decides.
pub fn start(st: Reader, line: &[u16]) -> Told
    ensures { (result ≡ starts st (checked_of st.system st.mode line.now)) × (event_numbers result.event ≡ start_by st line.now) }
{
    let c = check::check(st.system, st.mode, line);
    if c.fault != 0 {
        return refuse(st, c.fault);
    }
    begin_line(st, c.number, c.settings)
}
