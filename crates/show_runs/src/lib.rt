//! A run of an application, with its lines, its screen or its sums.
#![tactic(auto)]

mod drawing;
mod running;

pub use drawing::draw;
pub use running::{run, sum_up};
