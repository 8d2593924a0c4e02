// What a line is. A line is a lent sequence of u16; nothing here writes to it.
#![tactic(auto)]

pub mod systems; // systems.rt: L, P, N and code of the four systems
pub mod fixed; // fixed.rt: the table of fixed blocks
pub mod settings; // settings.rt: the settings and their faults 10 to 13
pub mod timing; // timing.rt: EAV and SAV
pub mod header; // header.rt: the 53 header words, written
pub mod layout; // layout.rt: the area of a line
pub mod check; // check.rt: what the line check answers, and whether a line fits
pub mod forms; // forms.rt: lists of words, each in a form
