//! The verdict on a recorded run.
#![tactic(auto)]

mod recorded;

pub use recorded::{judge, read_recorded};
