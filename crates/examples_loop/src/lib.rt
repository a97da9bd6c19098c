//! A runtime that a program keeps, with an inbox: posters post beside it, a click comes in between,
//! and it sleeps where there is nothing to take.
#![tactic(auto)]

mod laws;
mod posting;
mod running;

pub use laws::click_settles;
pub use posting::looped;
pub use running::{POSTS, Running, Served};
