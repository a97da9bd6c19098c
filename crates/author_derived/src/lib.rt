//! Pages with derived cells: cells that are kept equal to functions of the values of other cells.
#![tactic(auto)]

mod gathering;
mod laws;
mod paged;
mod pages;

pub use laws::{current_derived_show, kept_are_derived, reports_show_derived};
pub use paged::DerivedPaged;
pub use pages::DerivedPages;
