//! The definitions of the runtime: what a state is, what a call may see and change, and which logs and edits a runtime may produce.
//!
//! The definitions stand in specs/; the functions here claim what holds of them. docs/MODEL.md tells them in prose.
#![tactic(auto)]

mod general_laws;
mod rows;

pub use general_laws::{
    done_is_valid, fault_is_invalid, finished_comes_to, finished_is_headline, lawful_logs_last,
    one_fault, one_log, programs_are_lawful, ran_is_valid, removal_takes_one, rest_causes_nothing,
    same_causes_nothing, shown_once, test_decides_current, told_is_replayed,
};
pub use rows::{
    attributes_move, context_wakes_task, rows_hold, small_are_lawful, suspended_renders,
};
