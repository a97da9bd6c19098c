//! Elm's equation for a runtime that a program keeps: what its calls make of the values of pages, and
//! what shows after a call that settles.
//!
//! The functions do nothing: what each claims of the definitions is its contract.
#![tactic(auto)]

mod calling;
mod settling;

pub use calling::{calls_keep_cells, handled_update, written_update};
pub use settling::{calls_reduce, settled_show};
