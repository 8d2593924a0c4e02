// The reader's calls from C, and those that ask no state, as functions on bytes: `host` exports them.
#![tactic(auto)]

pub mod making; // making.rt: a reader made
pub mod reading; // reading.rt: a line read, with an allowance or none
pub mod looking; // looking.rt: a line checked, and the packets of its gap listed
