// What a reading call reports, as bytes, for those who hold it outside the library (02, Item 1).
#![tactic(auto)]

pub mod event_image; // event_image.rt: what a reading call reports
