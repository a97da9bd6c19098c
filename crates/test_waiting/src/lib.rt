//! The application of the tests of posted sessions: its calls wait for posts.
#![tactic(auto)]

mod held;
mod waiting;

pub use held::{Held, Kinds};
pub use waiting::Waiting;
