// The writer's calls with values and lists of blocks that are lent as bytes, two bytes a word, low byte first. The line is lent as words: the crate
// `bytewriter` lends one of its own.
#![tactic(auto)]

pub mod adding; // adding.rt: a block added
pub mod batch; // batch.rt: many blocks in one call
pub mod packing; // packing.rt: a packet added in the gap
mod values; // values.rt: words lent as bytes, looked at or made words
