//! Values under numbers, which contracts see as the list of pairs that the definitions speak of.
#![tactic(auto)]

mod boxed_table;
mod firsts;
mod shelf;
mod table;

pub use boxed_table::BoxedTable;
pub use shelf::Shelf;
pub use table::Table;
