// The writer's calls on lines that are lent as bytes, two bytes a word, low byte first; values and lists of blocks too.
// No call converts a whole line in and out: what a call lays does not depend on the line's words, so it is laid into a line of zeros, and only what was
// laid goes back as bytes.
#![tactic(auto)]

pub mod opening; // opening.rt: a line opened
pub mod adding; // adding.rt: a block added
pub mod batch; // batch.rt: many blocks in one call
pub mod packing; // packing.rt: a packet added in the gap
pub mod closing; // closing.rt: a line closed
mod lent; // lent.rt: a line lent as bytes, and what goes back to it
