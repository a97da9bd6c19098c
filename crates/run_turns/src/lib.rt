//! The turns of open work but for the steps of boundaries, the first step of a unit, and the entries
//! that are written down of them.
#![tactic(auto)]

mod agenda;
mod course;
mod unit;

pub use agenda::{draw, feed, make, sum, take, too_deep};
pub use course::Course;
pub use unit::{entry_for, first_step};
