// What a walk over words leaves.
ghost use Rattle.std.specs.Prelude.{◌≡◌};
ghost use Rattle.machine.specs.Walk.{is_nothing};

use crate::phase::Phase;
use crate::step::Met;

// What a walk leaves beside the room: the phase, what was met, and how many words were taken.
#[derive(Clone, Copy)]
pub struct Walked {
    pub phase: Phase,
    pub met: Met,
    pub taken: usize,
}

// Nothing was met.
pub fn is_nothing(met: Met) -> bool
    ensures { result ≡ is_nothing met }
{
    matches!(met, Met::Nothing)
}
