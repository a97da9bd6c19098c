//! The attributes and the listeners of elements: as they show, and what a change of them writes.
#![tactic(auto)]

mod content;
mod given;
mod order;
mod slot;

pub use content::{attributes_in, element_attributes, element_listeners};
pub use given::attributes_written;
