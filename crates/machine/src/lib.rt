// The word machine: 01's table of variable words by phase, one word at a time, and what the walk asks of runs and heads. It knows
// no line and no settings; the room's length is its capacity. All definitions of walks, and their laws, stand here.
#![tactic(auto)]

pub mod phase; // phase.rt: where a block stands, and what of it is impossible
pub mod step; // step.rt: what one word does
pub mod runs; // runs.rt: what a run is: words that report nothing
pub mod heads; // heads.rt: a whole head, taken at once
pub mod walk; // walk.rt: what a walk leaves
