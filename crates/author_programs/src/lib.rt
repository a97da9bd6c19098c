//! Programs in data: what they come to, one after another; applications of pure answers; what pages
//! show at a scope's first run; and kinds of contexts in ranges.
#![tactic(auto)]

mod first_runs;
mod laws;
mod ranges;

pub use first_runs::first_pages_show;
pub use laws::{
    coded_tests, current_pages_show, either_tests, heard_from_below, memoized_are_lawful,
    pages_are_lawful, pages_show_present_values, pair_tests, plain_tests,
    programs_come_to_their_meaning, programs_go_on, reports_show_pages, unread_runs_nothing,
};
pub use ranges::{commands_within, kinds_apart, kinds_go_on, other_kinds_stay};
