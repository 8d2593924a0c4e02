// The line check: for any system number, any mode number and any words, the lowest of 1 and 3 to 16 whose condition holds
// (14 has none), or no fault, with the number and the settings that stand in the line.
ghost use Rattle.std.specs.Prelude.{◌≡◌, true};
ghost use Rattle.lists.specs.Tests.{lowest_of};
ghost use Rattle.line.specs.Systems.{system_of};
ghost use Rattle.line.specs.Check.{settings_of, faults, fits, faulty_with, checked_of};

use crate::{area, head};
use line::check::Checked;
use line::settings::Settings;
use line::{check, settings, systems};

// The lowest of 3 to 16 that holds of a line that fits, or 0. A fault of the head or of the settings leaves before the area is looked at.
fn fault_of(system: u8, mode: u8, t: Settings, line: &[u16]) -> u8
    requires { (fits system mode line.now ≡ true) × (t ≡ settings_of line.now) }
    ensures { result ≡ lowest_of (faults (system_of system) mode line.now) }
{
    let s = systems::system_of(system);
    let r3 = head::head_fault(s, line);
    if r3 != 0 {
        return r3;
    }
    let r10 = settings::settings_fault(system, t);
    if r10 != 0 {
        return r10;
    }
    area::payload_fault(s, mode, t.block, t.flag, line)
}

// A line with a fault: nothing is read of it.
fn faulty(fault: u8) -> Checked
    ensures { result ≡ faulty_with fault }
{
    Checked {
        fault,
        number: 0,
        settings: settings::no_settings(),
    }
}

// The line check.
pub fn check(system: u8, mode: u8, line: &[u16]) -> Checked
    ensures { result ≡ checked_of system mode line.now }
{
    if !check::is_fit(system, mode, line.len()) {
        return faulty(1);
    }
    let settings = head::settings_of(line);
    let fault = fault_of(system, mode, settings, line);
    if fault != 0 {
        return faulty(fault);
    }
    Checked {
        fault: 0,
        number: head::number_of(line),
        settings,
    }
}
