//! The rows of a screen that change, put report by report.
#![tactic(auto)]

mod pictures;

pub use pictures::{put_ended_screens, put_screens};
