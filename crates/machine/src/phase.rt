// The phase: where a block stands between two words.
ghost use Rattle.std.specs.Prelude.{◌≡◌};
ghost use Rattle.machine.specs.Phases.{is_busy, misphased};
ghost use Rattle.machine.specs.Walk.{collected_of};

// What the type word said: a type; or, by 100h, that this is a null, which is walked like a block and not handed out. Not an `Option`: a null is said, not missing.
#[derive(Clone, Copy)]
pub enum Mark {
    Typed(u8),
    Nulled,
}

// Where a block stands: idle; type awaited; the first, second, third or fourth count byte awaited, with the mark and the bytes
// so far; data, with the count announced (0: not stated) and the number collected, the mark still held.
#[derive(Clone, Copy)]
pub enum Phase {
    Idle,
    Kind,
    First {
        mark: Mark,
    },
    Second {
        mark: Mark,
        b0: u8,
    },
    Third {
        mark: Mark,
        b0: u8,
        b1: u8,
    },
    Fourth {
        mark: Mark,
        b0: u8,
        b1: u8,
        b2: u8,
    },
    Data {
        mark: Mark,
        announced: usize,
        collected: usize,
    },
}

// An open phase: every phase but idle.
pub fn is_busy(phase: Phase) -> bool
    ensures { result ≡ is_busy phase }
{
    !matches!(phase, Phase::Idle)
}

// Announced or collected above the room's length; collected above a nonzero count.
pub fn is_misphased(room: usize, phase: Phase) -> bool
    ensures { result ≡ misphased room phase }
{
    match phase {
        Phase::Data {
            announced: n,
            collected: m,
            ..
        } => (room < n) | ((room < m) | ((n != 0) & (n < m))),
        _ => false,
    }
}

// The number collected.
pub fn collected_of(phase: Phase) -> usize
    ensures { result ≡ collected_of phase }
{
    match phase {
        Phase::Data { collected, .. } => collected,
        _ => 0,
    }
}
