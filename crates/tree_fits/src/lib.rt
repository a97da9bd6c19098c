//! The node test: whether a template and the values of its slots belong together.
#![tactic(auto)]

mod block;
mod names;
mod node_test;
mod place;
mod rising;
mod walk;

pub use block::slot_fits;
pub use names::{in_slot, names_differ};
pub use node_test::fits;
