// The words of a block, laid into a lent part; and which values it may have. It knows no line, no place and no state.
#![tactic(auto)]

pub mod block; // block.rt: the words of a block, from any of them on
pub mod fill; // fill.rt: lent parts filled with words
pub mod values; // values.rt: whether values are those that a mode has
