// What a run is, whatever it is a run of: the words at which it ends, how many words of it a phase takes at once, and what was taken. The walks over words
// and over bytes share it.
ghost use Rattle.std.specs.Prelude.{◌≡◌};
ghost use Rattle.machine.specs.Runs.{stops_by, limit_of, most_by, ran_phase};

use crate::phase::Phase;
use words::class;

// A run taken: the phase behind it, and how many words it has.
#[derive(Clone, Copy)]
pub struct Ran {
    pub phase: Phase,
    pub taken: usize,
}

// A run ends at 309h and 30Ah, and in 8-bit mode at 100h.
pub fn stops(mode: u8, w: u16) -> bool
    ensures { result ≡ stops_by mode w }
{
    class::is_code(w) | ((mode == 8) & class::is_null(w))
}

// How many data words a block may have: up to the count, if it is stated, and to the room's end. Not std's `min` here, nor its `saturating_sub` below:
// `smaller_of` and `minus_or_zero` have promises and edits of ours (docs/PROMISES.md), which so are of code that runs.
#[tactic(auto, unfolding(crate::specs::Runs::limit_of, lists::specs::Tests::pick))]
pub fn limit_of(room: usize, n: usize) -> usize
    ensures { result ≡ limit_of room n }
{
    if n == 0 {
        room
    } else {
        lists::smaller_of(n, room)
    }
}

// How many of so many words a phase takes at once, if no run ends among them: idle all, data as many as there is space for.
pub fn most_of(phase: Phase, long: usize, room: usize) -> usize
    ensures { result ≡ most_by phase room long }
{
    match phase {
        Phase::Idle => long,
        Phase::Data {
            announced,
            collected,
            ..
        } => lists::smaller_of(
            long,
            lists::minus_or_zero(limit_of(room, announced), collected),
        ),
        _ => 0,
    }
}

// So many words taken, and the phase behind them.
pub fn took(phase: Phase, taken: usize) -> Ran
    ensures { (result.phase ≡ phase) × (result.taken ≡ taken) }
{
    Ran { phase, taken }
}

// The phase behind so many words of a run, of which it takes no more than it may: data collects them.
#[tactic(auto, using(crate::proofs::RunLaws::end_in_room))]
pub fn behind(phase: Phase, room: usize, k: usize) -> Ran
    ensures { (result.taken ≡ most_by phase room k) × (result.phase ≡ ran_phase phase (most_by phase room k)) }
{
    let taken = most_of(phase, k, room);
    match phase {
        Phase::Data {
            mark,
            announced,
            collected,
        } => {
            let next = Phase::Data {
                mark,
                announced,
                collected: collected + taken,
            };
            took(next, taken)
        }
        _ => took(phase, taken),
    }
}
