// The reader's state as bytes, for those who hold it outside the library (02, Item 1). Every state of the type has an image of its own, possible or not, and an
// image is what a state gives: bytes that no state gives are found out.
#![tactic(auto)]

pub mod reader_image; // reader_image.rt: the reader's state
