// The writer's calls from C, as functions on bytes: `host` exports them.
#![tactic(auto)]

pub mod making; // making.rt: a writer made
pub mod writing; // writing.rt: a line opened, blocks and packets added, the line closed
