//! Fine moves of the definitions' machine, one item of open work at a time; what they leave of all
//! other scopes, and that they never get stuck. What is kept of a scope is what its body gives now,
//! or the scope is marked; and a session's reports beside the turns of a runtime: one item of open
//! work, the end of a unit, a listener, the begin of a unit.
//!
//! A runtime's calls and the laws of a run stand on them. The definitions stand in specs/, and the
//! functions here claim what holds of them: Moves.antt tells what a move is, Words.antt and
//! Calls.antt what a call says that serves open work.
#![tactic(auto)]

mod framing;
mod heeding;
mod ready;
mod removing;
mod rendering;
mod reporting;
mod running;
mod settling;
mod telling;
mod turns;

pub use framing::{items_leave, makes_join, removals_leave, runs_leave};
pub use heeding::{commands_heed, fresh_repeats, removal_heeds};
pub use ready::{due_is_served, reached_are_named};
pub use removing::{
    leaf_ends, leaf_prunes, one_more_went, others_are_left, reached_are_wooded, removal_walks,
};
pub use rendering::{all_rendered_are_current_or_owed, rendered_are_current_or_owed};
pub use reporting::{ran_is_current, ran_to_is_current};
pub use running::{fuel_suffices, logs_are_moves, moves_are_accepted, one_move, stops_come_to};
pub use settling::{
    all_are_current_or_owed, children_fit_slots, due_is_any, fed_fit, others_are_current_or_owed,
    settled_are_current, settled_show_held,
};
pub use telling::{logs_join, moves_are_told, reports_go_on, unit_ends, unit_is_told, unit_stops};
pub use turns::{reports_join, reports_ran, reports_ran_to, rest_owes_none};
