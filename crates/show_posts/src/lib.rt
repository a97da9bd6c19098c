//! The program with the messages that threads post while it runs.
#![tactic(auto)]

mod posted;
mod taking;

pub use posted::{asks_for_posters, show_posted, show_posted_and_say};
