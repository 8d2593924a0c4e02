// The calls from C (02, Item 1; include/sdti.h): plain functions on numbers and buffers of bytes, words low byte first. A state travels as an image of 80 bytes. Each call is the
// library's own call on the state that the image gives; 1 and 2 change no byte of any buffer. The crate host_c exports them.
#![tactic(auto)]

pub mod making; // making.rt: a reader or a writer made
pub mod reading; // reading.rt: a line read, with an allowance or none
pub mod writing; // writing.rt: a line opened, blocks and packets added, the line closed
pub mod looking; // looking.rt: a line checked, and the packets of its gap listed
