//! Laws on how a runtime behaves, for those who call it: what comes next, what changes nothing,
//! where errors and look-ups go, who is marked, what a removal calls; what is owed is done, what
//! lasts of a scope, and that no body runs twice in a render. And what the calls of a program on a
//! built runtime say, of every lawful application.
//!
//! The functions have empty bodies: what each claims of the definitions is its contract.
#![tactic(auto)]

mod ending;
mod hiding;
mod lasting;
mod once;
mod owing;
mod programs;
mod reaching;
mod turns;

pub use ending::{children_go_first, clean_ups_in_turn, effects_in_turn};
pub use hiding::{effects_are_mounted, hidden_writes_nothing, shown_are_mounted};
pub use lasting::{
    ends_release, first_error_lasts, first_error_stays, holders_last, holders_stay, hooks_last,
    hooks_stay, logged_first_error_lasts, logged_holders_last, logged_hooks_last, runs_keep_reads,
    suspensions_hold,
};
pub use once::{no_body_twice, no_body_twice_from, reruns_in_turn};
pub use owing::{
    logged_marks_are_run, logged_wakes_are_polled, looks_take_all, marks_are_run, wakes_are_polled,
    wakes_are_posted,
};
pub use programs::{
    asides_draw_none, asides_lead, asides_show_nothing, builds_carry_anew, builds_hold,
    calls_carry_anew, calls_come_to, calls_hold, events_write_nothing, given_builds_hold,
    handles_lead, logs_keep_drawn, passed_comes_next, passed_leads, polled_comes_next,
    polling_leads, polls_follow, polls_lead, renders_carry_anew, renders_come_to, renders_hold,
    renders_make_or_feed, renders_rerun_in_turn, renders_run_once, rests_alike, settled_hold,
    spent_carry_anew, spent_hold, stopped_write_nothing, suspended_carry_anew, unended_grows,
    units_follow, units_lead,
};
pub use reaching::{
    nearest_is_found, nearest_provides, provides_post_readers, throws_fill_once, ways_are_short,
    writes_post_only_readers, writes_post_readers,
};
pub use turns::{absent_changes_nothing, next_in_turn, none_is_left};
