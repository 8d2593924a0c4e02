// The writer: its state, and blocks added to an open line, for fixed and variable lines, all systems, both modes and both flags. The crate `lines`,
// above it, opens a line and closes it. State goes in and comes back by value; the line is lent. Every refusal leaves both as they were.
#![tactic(auto)]

pub mod state; // state.rt: the state, its answers, and which states are impossible
pub mod adding; // adding.rt: a block added, answers 1, 2, 17-20
pub mod batch; // batch.rt: many blocks in one call, answers 1, 2, 17-20, 28
