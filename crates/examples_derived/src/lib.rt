//! A memo of two cells and a resource that greets, in bodies. What shows one runs again where it
//! changes.
#![tactic(auto)]

mod derived;
mod laws;
mod parts;

pub use derived::{Answer, Body, Component, Derived, Deriving, Formula, Tasks};
pub use laws::derived_are_kept;
pub use parts::{Made, Value};
