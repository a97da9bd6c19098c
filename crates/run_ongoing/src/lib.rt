//! A session whose inputs come one by one, and of whose past nothing is kept.
#![tactic(auto)]

mod ongoing;

pub use ongoing::Ongoing;
