// The settings of a line, as byte values, and their faults.
ghost use Rattle.std.specs.Prelude.{◌≡◌};
ghost use Rattle.line.specs.Fixed.{fixed_of};
ghost use Rattle.line.specs.Settings.{no_settings, Held, settings_fault, same_settings};

use crate::fixed::Fixed;
use crate::{fixed, systems};

#[derive(Clone, Copy, PartialEq, Eq)]
pub struct Settings {
    pub code: u8,
    pub aai: u8,
    pub destination: [u8; 16],
    pub source: [u8; 16],
    pub block: u8,
    pub flag: u8,
    pub reserved: [u8; 5],
}

// Settings zero.
pub fn no_settings() -> Settings
    ensures { result ≡ no_settings }
{
    Settings {
        code: 0,
        aai: 0,
        destination: [0u8; 16],
        source: [0u8; 16],
        block: 0,
        flag: 0,
        reserved: [0u8; 5],
    }
}

// The same settings. What it ensures is what every value of the type holds.
pub fn held(settings: Settings) -> Settings
    ensures { (result ≡ settings) × Held result }
{
    settings
}

// The two settings are equal.
pub fn same_settings(a: Settings, b: Settings) -> bool
    ensures { result ≡ same_settings a b }
{
    a == b
}

// The lowest of 10 to 13 that holds of the settings, or 0; by the table's row of the block type. The reserved bytes are not asked.
fn fault_by(system: u8, row: Fixed, settings: Settings) -> u8
    requires { row ≡ fixed_of settings.block }
    ensures { result ≡ settings_fault system settings }
{
    let s = systems::system_of(system);
    if settings.code != s.code {
        return 10;
    }
    if 1 < settings.aai {
        return 11;
    }
    if fixed::block_refused(s.payload, row, settings.block, settings.flag) {
        return 12;
    }
    lists::or_else(1 < settings.flag, 13, 0)
}

// What is found of settings: the lowest of 10 to 13 that holds, or 0, and the table's row of the block type.
#[derive(Clone, Copy)]
pub struct Found {
    pub fault: u8,
    pub row: Fixed,
}

// The table is looked up once, because a call of a fixed line asks for both and moves few words.
pub fn find_fault(system: u8, settings: Settings) -> Found
    ensures { (result.fault ≡ settings_fault system settings) × (result.row ≡ fixed_of settings.block) }
{
    let row = fixed::fixed_of(settings.block);
    let fault = fault_by(system, row, settings);
    Found { fault, row }
}

// The lowest of 10 to 13 that holds of the settings, or 0.
pub fn settings_fault(system: u8, settings: Settings) -> u8
    ensures { result ≡ settings_fault system settings }
{
    find_fault(system, settings).fault
}
