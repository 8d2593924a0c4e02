// What the line check answers, and whether a line fits. The check itself is the crate `linecheck`.
ghost use Rattle.std.specs.Prelude.{◌≡◌};
ghost use Rattle.line.specs.Check.{fits_length};

use crate::settings::Settings;
use crate::systems;

// What the check answers: 01's number of the fault, or 0; and where it is 0, what was read.
#[derive(Clone, Copy)]
pub struct Checked {
    pub fault: u8,
    pub number: u16,
    pub settings: Settings,
}

// A system and a mode that there are, and a line of the system's length.
#[tactic(auto, unfolding(crate::specs::Check::fits_length))]
pub fn is_fit(system: u8, mode: u8, length: usize) -> bool
    ensures { result ≡ fits_length system mode length }
{
    let long = length == systems::system_of(system).length;
    systems::is_system(system) & (words::forms::is_mode(mode) & long)
}
