// What the calls from C are (02, Item 1): their definitions and laws, the numbers that they answer, and what is asked before a call. The calls themselves are the crates `hostreads` and
// `hostwrites`, and `host` exports them.
#![tactic(auto)]

pub mod answers; // answers.rt: the numbers that the calls answer
pub mod early; // early.rt: 1 and 2, asked before a writer's call
