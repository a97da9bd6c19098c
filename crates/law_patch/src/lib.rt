//! Laws of the marks of two trees: what becomes of places, what is drawn, fed, made and dropped,
//! and what is written is read from them.
//!
//! The functions have empty bodies: what each claims of the definitions is its contract.
#![tactic(auto)]

mod marks;
mod rows;
mod serving;

pub use marks::{marks_are_events, marks_are_written, marks_bring, marks_do};
pub use rows::{row_empties, row_grows, row_moves};
pub use serving::{
    appended_agrees, marks_read_behind, marks_read_fresh, served_is_written, written_so_far,
};
