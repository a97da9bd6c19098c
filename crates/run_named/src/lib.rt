//! Where a node stands, as a program is told it.
#![tactic(auto)]

mod naming;
mod paths;

pub use naming::name_place;
