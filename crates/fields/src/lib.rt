// Numbers and settings as bytes, and what the images of a reader's and of a writer's state share (02, Item 1). Numbers stand lowest byte first.
#![tactic(auto)]

pub mod numbers; // numbers.rt: numbers and settings
pub mod frame; // frame.rt: what the images of reader and writer share
