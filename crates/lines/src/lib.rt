// A line opened, a packet put in its gap, and the line closed: the writer's calls that are made once or a few times a line. The state, its
// definitions and the laws are those of `writer`. Every refusal leaves state and line as they were.
#![tactic(auto)]

pub mod opening; // opening.rt: a line opened, answers 1, 2, 9-13, 20
pub mod packing; // packing.rt: a packet added in the gap: 1, 2, 17, 18, 20, 24
pub mod closing; // closing.rt: a line closed, answers 1, 2, 20
mod fill; // fill.rt: lent parts filled with filler
