//! A character screen: the rows that a document has on it, and which of them changed.
#![tactic(auto)]

mod fitting;
mod laws;
mod laying;
mod lines;
mod printed;
mod rows;
mod screen;

pub use laws::{nothing_is_lost, rows_fit};
pub use printed::{row_line, screen_line};
pub use rows::Row;
pub use screen::Screen;
