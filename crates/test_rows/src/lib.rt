//! Rows of the whole program, which are data: what is run by each, and what is put of it.
#![tactic(auto)]

mod rows;
mod twins;

pub use rows::put_rows;
pub use twins::Twins;
