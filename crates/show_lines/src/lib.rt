//! A source of bytes line by line: which lines bytes have, and a reader that hands out one after the
//! other.
#![tactic(auto)]

mod laws;
mod reader;

pub use laws::lines_are_cut;
pub use reader::LineReader;
