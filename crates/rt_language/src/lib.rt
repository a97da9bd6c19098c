//! The JSON application language as data and meaning: what a source says, what it means, what its run prints.
//!
//! The definitions stand in specs/; the functions here claim what holds of them.
#![tactic(auto)]

mod boundary_rows;
mod child_rows;
mod command_rows;
mod context_rows;
mod cut_rows;
mod error_rows;
mod event_rows;
mod fault_rows;
mod first_rows;
mod generated_rows;
mod kind_rows;
mod laws;
mod memo_rows;
mod state_rows;
mod suspense_rows;
mod table_rows;
mod task_rows;
mod tree_rows;

pub use boundary_rows::{
    callbacks_of_a_fallback, effect_waits, fallback_reads_while_turning, held_at_its_start,
    hooks_of_a_boundary, placeholder_is_not_counted, shown_and_held, turns_unseen,
};
pub use child_rows::{
    child_writes_what_its_parent_read, cleans_up_its_own_cell, cleans_up_last_made_first,
    kept_child_reruns, parent_feeds_child, removes_deepest_first,
};
pub use command_rows::{
    call_sees_its_own_context, effects_in_a_batch, hooks_after_a_run, task_outlives_its_scope,
    task_stays_and_throws,
};
pub use context_rows::{
    context_is_tracked, context_of_a_child, context_through_a_fragment, nearer_provider,
};
pub use cut_rows::cut_units;
pub use error_rows::{error_caught_and_cleared, first_error_stays, handler_fails};
pub use event_rows::{
    all_are_marked, event_is_stopped, events_bubble, fragment_empties_and_fills,
    inputs_name_nothing, to_do_list,
};
pub use fault_rows::{
    as_deep_as_allowed, hook_changes_kind, name_stands_twice, suspends_on_an_ended_task,
    too_deep_a_make, units_are_spent,
};
pub use first_rows::{
    attribute_goes_and_comes, cell_is_made_once, conditional_reads, names_end_with_their_block,
    other_prop, prop, static_tree,
};
pub use generated_rows::ten_rows;
pub use kind_rows::{
    absent_value_is_provided, actions_know_no_generation, first_uses, kept_values, kinds_of_hooks,
    single_cases,
};
pub use laws::{
    expressions_look, fault_rows_say, narrow_have_their_paths, rows_say, sources_are_lawful,
    sources_poll_memos, wide_never_fit,
};
pub use memo_rows::{memo_follows_what_it_looked_at, resource_loads_for_its_key};
pub use state_rows::{
    all_goes_with_a_scope, cell_is_dropped, fallback_goes_first, order_of_equal_heights,
    task_pauses, task_without_steps, units_begin_anew,
};
pub use suspense_rows::{
    boundary_in_a_boundary, foreign_task_holds_on, one_task_holds_two_boundaries, suspense,
    two_tasks_hold_one_boundary,
};
pub use table_rows::{joined_texts, numbers, texts_that_write_numbers};
pub use task_rows::{
    ended_task_alone, ended_task_isnt_polled, task_before_the_next_batch, task_cancels_itself,
    task_goes_first,
};
pub use tree_rows::{
    attributes_become_listeners, clears_an_empty_slot, event_bubbles_out_of_a_child,
    fragment_of_several_nodes, lone_slots_are_alike, namespace_and_quotes, origin_of_a_listener,
};
