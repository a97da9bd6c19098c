//! The open work of a component runtime: what a new tree keeps of an old one, and what it leads to.
#![tactic(auto)]

mod alike;
mod component;
mod item;
mod pairing;
mod patched;
mod takes;
mod taking;
mod turning;

pub use alike::are_alike;
pub use component::is_same_component;
pub use item::{Item, RowStep};
pub use pairing::{walk, walk_both, walk_new};
pub use patched::Patched;
pub use takes::Takes;
