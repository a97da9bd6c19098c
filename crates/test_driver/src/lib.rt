//! Drives what has the calls of a dom by calls that are data, and writes what each answers.
#![tactic(auto)]

mod asked;
mod calling;
mod driven;
mod driving;
mod sessions;
mod telling;
mod words;

pub use driven::{Boundary, Driven, Scoped};
pub use driving::drive;
pub use telling::put_fault;
