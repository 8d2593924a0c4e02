// The reader: 01's section "The reader, step by step", above the word machine. State goes in and comes back by value; line and room are
// lent.
#![tactic(auto)]

pub mod jump; // jump.rt: the signed jump
pub mod state; // state.rt: the state, what calls tell, and which states are impossible
pub mod begin; // begin.rt: a line begun or refused
pub mod read; // read.rt: the reading call
pub mod within; // within.rt: the reading call under an allowance of area words
