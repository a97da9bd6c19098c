//! Elm's equation for applications of pages in which nothing fails, as laws: no scope keeps an error,
//! the root's scope stays, and at the end it shows its function of the fold of all inputs.
//!
//! The functions do nothing: what each claims of the definitions is its contract.
#![tactic(auto)]

mod failing;
mod folding;
mod rooting;

pub use failing::{no_error_comes, pages_keep_no_error};
pub use folding::{elm_programs_fold, elm_programs_show};
pub use rooting::{elm_folds, elm_shows, replies_read, roots_last};
