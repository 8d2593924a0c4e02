// Which fault a line has. Nothing here writes to the line.
#![tactic(auto)]

pub mod check; // check.rt: the line check, answers 1, 3 to 13, 15 and 16
mod head; // head.rt: the conditions 3 to 9, and what stands in a header
mod area; // area.rt: the conditions 15 and 16
