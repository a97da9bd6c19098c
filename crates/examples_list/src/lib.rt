//! A list of what is wanted: a library's field whose words become an item, and items that are
//! taken out. The items stand in a cell of the component that shows them all.
#![tactic(auto)]

mod faces;
mod laws;
mod listed;
mod parts;
mod writing;

pub use laws::{add_shows_one_more, heard_in_turn, lists_fold, lists_show, lists_show_values};
pub use listed::{Shopping, no_props};
pub use parts::{Change, Component, Value};
