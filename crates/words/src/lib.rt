// Ten-bit words: their forms, the values they carry by mode, what a payload word is; and what the checksum and the 18-bit CRC of words are.
// A word is a u16, B0 its lowest bit. A number of 400h or above is no word: it has no form, and no test of form masks it.
#![tactic(auto)]

pub mod forms; // forms.rt: data form and byte form, and the words of values by mode
pub mod class; // class.rt: the table that says what a payload word is
