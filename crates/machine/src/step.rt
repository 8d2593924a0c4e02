// The word machine: what one word of a variable area does, by the phase and the class of the word. The order in every open
// phase is 309h, 30Ah, the form, the size, and 100h as data. It knows no line and no settings; the room's length is its capacity.
ghost use Rattle.std.specs.Prelude.{◌≡◌, ◌+◌, ◌*◌, ◌%◌};
ghost use Rattle.words.specs.Class.{class_number_of};
ghost use Rattle.machine.specs.Phases.{phase_numbers, met_numbers};
ghost use Rattle.machine.specs.StepNumbers.{met_by, phase_by};
ghost use Rattle.machine.specs.Machine.{on, dropped, again, idle_step, kind_step, count_step, counted, ended, end_step, value_step, data_step, step_by, step_of};

use crate::phase::{Mark, Phase};
use words::class;
use words::class::Class;

// What a word reports: nothing; a whole block, with type and length; or a drop, with its number.
#[derive(Clone, Copy)]
pub enum Met {
    Nothing,
    Whole { kind: u8, length: usize },
    Lost { reason: u8 },
}

// What one word does: the next phase, what it reports, and whether its value goes into the room.
#[derive(Clone, Copy)]
pub struct Step {
    pub phase: Phase,
    pub met: Met,
    pub keeps: bool,
}

fn go_on(phase: Phase) -> Step
    ensures { result ≡ on phase }
{
    Step {
        phase,
        met: Met::Nothing,
        keeps: false,
    }
}

fn lose(reason: u8) -> Step
    ensures { result ≡ dropped reason }
{
    Step {
        phase: Phase::Idle,
        met: Met::Lost { reason },
        keeps: false,
    }
}

// 309h in any open phase: drop 1 and then type awaited.
fn start_again() -> Step
    ensures { result ≡ again }
{
    Step {
        phase: Phase::Kind,
        ..lose(1)
    }
}

fn idle_step(c: Class) -> Step
    ensures { result ≡ idle_step c }
{
    match c {
        Class::Separator => go_on(Phase::Kind),
        _ => go_on(Phase::Idle),
    }
}

fn kind_step(c: Class, b: u8) -> Step
    ensures { result ≡ kind_step c b }
{
    match c {
        Class::Separator => start_again(),
        Class::Ending => lose(4),
        Class::Byte => go_on(Phase::First {
            mark: Mark::Typed(b),
        }),
        Class::Null => go_on(Phase::First { mark: Mark::Nulled }),
        Class::Other | Class::Illegal => lose(2),
    }
}

// A count word: next is what a byte leads to.
fn count_step(c: Class, next: Step) -> Step
    ensures { result ≡ count_step c next }
{
    match c {
        Class::Separator => start_again(),
        Class::Ending => lose(4),
        Class::Byte => next,
        Class::Other | Class::Illegal | Class::Null => lose(3),
    }
}

// The count is whole.
#[tactic(auto, unfolding(crate::specs::Machine::counted, lists::specs::Tests::pick))]
fn count_whole(room: usize, mark: Mark, n: usize) -> Step
    ensures { result ≡ counted room mark n }
{
    if room < n {
        return lose(3);
    }
    go_on(Phase::Data {
        mark,
        announced: n,
        collected: 0,
    })
}

// A block that ended properly is handed out; a null is not.
fn hand_out(mark: Mark, m: usize) -> Step
    ensures { result ≡ ended mark m }
{
    match mark {
        Mark::Typed(kind) => Step {
            phase: Phase::Idle,
            met: Met::Whole { kind, length: m },
            keeps: false,
        },
        Mark::Nulled => go_on(Phase::Idle),
    }
}

#[tactic(auto, unfolding(crate::specs::Machine::end_step, lists::specs::Tests::pick))]
fn end_step(mark: Mark, n: usize, m: usize) -> Step
    ensures { result ≡ end_step mark n m }
{
    if (n == 0) | (n == m) {
        return hand_out(mark, m);
    }
    lose(4)
}

// A data word: past a met count, past the room with no count, no value, or one whose value goes into the room, if its place is there. Asked
// at the write itself, that last test makes reading up to ten times slower (docs/PERFORMANCE.md).
#[tactic(auto, unfolding(crate::specs::Machine::value_step, lists::specs::Tests::pick))]
fn value_step(void: bool, room: usize, mark: Mark, n: usize, m: usize) -> Step
    ensures { result ≡ value_step void room mark n m }
{
    if (n != 0) & (n <= m) {
        return lose(5);
    }
    if (n == 0) & (room <= m) {
        return lose(6);
    }
    if void {
        return lose(7);
    }
    Step {
        phase: Phase::Data {
            mark,
            announced: n,
            collected: m + 1,
        },
        met: Met::Nothing,
        keeps: m < room,
    }
}

// 100h is no value in 8-bit mode.
fn data_step(mode: u8, room: usize, mark: Mark, n: usize, m: usize, c: Class) -> Step
    ensures { result ≡ data_step mode room mark n m c }
{
    match c {
        Class::Separator => start_again(),
        Class::Ending => end_step(mark, n, m),
        Class::Byte | Class::Other | Class::Illegal => value_step(false, room, mark, n, m),
        Class::Null => value_step(mode == 8, room, mark, n, m),
    }
}

// One word of that class, in that mode and a room of that length.
pub fn step_by(c: Class, mode: u8, room: usize, phase: Phase, w: u16) -> Step
    ensures { result ≡ step_by mode room phase c (w % 256) }
{
    let b = (w % 256) as u8;
    match phase {
        Phase::Idle => idle_step(c),
        Phase::Kind => kind_step(c, b),
        Phase::First { mark } => count_step(c, go_on(Phase::Second { mark, b0: b })),
        Phase::Second { mark, b0 } => count_step(c, go_on(Phase::Third { mark, b0, b1: b })),
        Phase::Third { mark, b0, b1 } => count_step(
            c,
            go_on(Phase::Fourth {
                mark,
                b0,
                b1,
                b2: b,
            }),
        ),
        Phase::Fourth { mark, b0, b1, b2 } => count_step(
            c,
            count_whole(room, mark, u32::from_le_bytes([b0, b1, b2, b]) as usize),
        ),
        Phase::Data {
            mark,
            announced,
            collected,
        } => data_step(mode, room, mark, announced, collected, c),
    }
}

// One word, in that mode and a room of that length; and the numbers of what it reports and of the next phase, by those of the phase and the word.
pub fn step_word(mode: u8, room: usize, phase: Phase, w: u16) -> Step
    ensures { (result ≡ step_of mode room phase w) × (met_numbers result.met ≡ met_by mode room (phase_numbers phase) (class_number_of w) (w % 256))
        × (phase_numbers result.phase ≡ phase_by mode room (phase_numbers phase) (class_number_of w) (w % 256)) }
{
    step_by(class::class_of(w), mode, room, phase, w)
}
