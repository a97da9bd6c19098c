//! Worked rows of single cases: counters at their ends, kinds of tasks, events, defaults, refused
//! edits, namespaces, the node test, what authors are told, what a program asks of a runtime; and what
//! a recorded log is judged to be.
//!
//! The rows and laws stand in specs/; each function claims that they hold.
#![tactic(auto)]

mod author_rows;
mod call_rows;
mod document_rows;
mod event_rows;
mod fit_rows;
mod list_rows;
mod namespace_rows;
mod pin_rows;
mod spent_rows;
mod suspended_rows;
mod verdict_rows;
mod verdicts;

pub use author_rows::{
    callback_without_a_turn, effect_of_a_hidden_scope, provides_two_values, row_is_too_long,
};
pub use call_rows::{
    batch_without_a_look, below_others, contexts_of_the_root, counted_calls, first_numbers,
    marked_from_outside, paused_and_resumed, places_of_numbers, polled_at_once,
    polls_suspended_work, spends_the_units_of_a_render,
};
pub use document_rows::{
    attributes_are_in_order, attributes_go, no_such_node, nodes_of_another_kind, repeated_numbers,
};
pub use event_rows::{defaults_are_prevented, events_stay, prevented_events};
pub use fit_rows::{levels_fit, rows_fit, slots_fit};
pub use list_rows::counts_of_items;
pub use namespace_rows::{names_fit, names_in_namespaces};
pub use pin_rows::{
    a_posted_mark_goes, all_clean_ups_are_done, attributes_of_inner_elements,
    callbacks_are_taken_off, cells_go_and_are_told, finished_units_before_a_depth,
    finished_units_before_a_hook, other_names_are_not_heard, units_are_spent_at_an_end,
};
pub use spent_rows::{
    one_cell_is_left, one_error_is_left, one_scope_is_left, one_task_is_left, spent_cells,
    spent_contexts, spent_renders, two_elements_are_left,
};
pub use suspended_rows::{
    frozen_in_a_render, frozen_in_a_session, isomorphic_in_a_render, kinds_in_a_session,
    suspended_in_a_render, two_tasks_in_a_session,
};
pub use verdict_rows::{accepted_row, refused_rows};
pub use verdicts::{accepted_exactly, refused_exactly};
