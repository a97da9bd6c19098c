//! Laws on what lasts along a session, and on sessions that finish: a cell keeps its value until it
//! is written, a scope its component until it is fed, and two finished sessions of one application
//! with the same props and inputs report the same.
//!
//! The functions have empty bodies: what each claims of the definitions is its contract.
#![tactic(auto)]

mod finishing;
mod lasting;

pub use finishing::{one_finish, rows_are_sessions};
pub use lasting::{
    cells_last, cells_stay, children_last, children_stay, components_last, logged_cells_last,
    logged_children_last, logged_components_last, logged_numbers_last, numbers_last,
};
