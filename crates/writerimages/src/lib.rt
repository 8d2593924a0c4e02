// The writer's state as bytes, for those who hold it outside the library (02, Item 1), as `images` has the reader's: no image is both.
#![tactic(auto)]

pub mod writer_image; // writer_image.rt: the writer's state
