//! Elm's equation as laws: after each report of an application of pages the values of its cells are
//! what the input made of those before it, and a page shows its function of them.
//!
//! The functions do nothing: what each claims of the definitions is its contract.
#![tactic(auto)]

mod folding;
mod keeping;
mod reducing;
mod showing;

pub use folding::{own_cells_fold, pages_reduce};
pub use keeping::{
    calls_come_later, cells_are_kept, current_wrapped, live_never_removed, live_unremoved,
    reports_wrapped, root_stays, runs_are_given, unrun_reads_stay, wrappers_stay,
};
pub use reducing::{one_hears, reports_reduce};
pub use showing::{
    bodies_show, folds_show, own_pages_show, pages_show_values, reports_show_bodies,
    reports_show_reduced,
};
