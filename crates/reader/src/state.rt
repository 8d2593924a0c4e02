// The reader's state and what its calls tell; which states are impossible.
ghost use Rattle.std.specs.Prelude.{◌≡◌};
ghost use Rattle.reader.specs.State.{fresh, impossible};
ghost use Rattle.reader.specs.Reading.{becomes};

use line::settings;
use line::settings::Settings;
use machine::phase;
use machine::phase::Phase;

// The words of the room.
pub const CAPACITY: usize = 16384;

#[derive(Clone, Copy)]
pub struct Reader {
    pub system: u8,
    pub mode: u8,
    pub last: Option<u16>,
    pub settings: Settings,
    pub place: Option<usize>,
    pub phase: Phase,
}

// What a reading call reports. Refusals and drops are numbers here, because `row_of` and `put_event` promise for every number. The header of a begun line stands in the state that comes back.
#[derive(Clone, Copy)]
pub enum Event {
    Refused {
        answer: u8,
        dropped: bool,
    },
    Begun {
        number: u16,
        jump: Option<i32>,
        dropped: bool,
    },
    Block {
        kind: u8,
        length: usize,
    },
    Drop {
        reason: u8,
    },
    End,
}

// What a reading call tells: the event, and the state afterwards.
#[derive(Clone, Copy)]
pub struct Told {
    pub event: Event,
    pub state: Reader,
}

// A fresh reader. Any numbers are taken: an unknown system or mode gives 1 later.
pub fn fresh_reader(system: u8, mode: u8) -> Reader
    ensures { result ≡ fresh system mode }
{
    Reader {
        system,
        mode,
        last: None,
        settings: settings::no_settings(),
        place: None,
        phase: Phase::Idle,
    }
}

// The same system and mode, and all else anew.
pub fn becomes(
    st: Reader,
    last: Option<u16>,
    t: Settings,
    place: Option<usize>,
    phase: Phase,
) -> Reader
    ensures { result ≡ becomes st last t place phase }
{
    Reader {
        last,
        settings: t,
        place,
        phase,
        ..st
    }
}

// No reader can have come into this state.
#[tactic(auto, unfolding(crate::specs::State::impossible_in))]
pub fn is_impossible(st: Reader) -> bool
    ensures { result ≡ impossible st }
{
    let busy = phase::is_busy(st.phase);
    course::is_impossible(st.system, st.last, st.settings, st.place, busy)
        | phase::is_misphased(CAPACITY, st.phase)
}
