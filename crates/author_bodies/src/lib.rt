//! Bodies that are written with the calls of a `Cx`, and the programs in data that they mean; and
//! applications from what an author gives: pages, whose answers are functions of the values of cells,
//! or such bodies.
#![tactic(auto)]

mod answers;
mod bodied;
mod bodies;
mod cells;
mod no_data;
mod paged;
mod pages;
mod rows;
mod short_lists;

pub use answers::{or_out_of_memory, unless_refused};
pub use bodied::Bodied;
pub use bodies::Bodies;
pub use cells::{KeepsCells, own_cell};
pub use no_data::NoData;
pub use paged::Paged;
pub use pages::Pages;
pub use rows::{read_all, write_all};
pub use short_lists::{one, two};
