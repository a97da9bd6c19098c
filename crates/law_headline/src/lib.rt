//! What the edits of a rerun make of the document that showed: the theorem of two states, what
//! stands wherever moves lead, and the rerun from its entry to its end; and by it what a session's
//! reports and edits say, and which numbers its edits carry, of every lawful application.
//!
//! The functions have empty bodies: what each claims of the definitions is its contract.
#![tactic(auto)]

mod carrying;
mod fitting;
mod orders;
mod outputs;
mod rerunning;
mod rows;
mod sessions;
mod standing;

pub use carrying::{
    cut_units_carry_anew, headlines_carry_anew, reruns_carry_anew, units_carry_anew,
};
pub use fitting::fitting_bring;
pub use orders::{attribute_differs, attribute_goes, attributes_commute, listeners_commute};
pub use outputs::{
    outputs_bring, outputs_claim, passes_bring, scopes_bring, trees_unfold, written_brings,
};
pub use rerunning::{
    reruns_bring, reruns_claim_once, reruns_hidden, reruns_keep_numbers, reruns_keep_setting,
    reruns_leave_others, reruns_meet,
};
pub use rows::{
    both_bring, children_bring, document_brought, element_brings, inserted_brings, joined_bring,
    nothing_brings, removed_brings, replaced_brings, text_brings,
};
pub use sessions::{
    calm_entries_leave, finished_hold, ran_is_headline, ran_shows, ran_to_is_came_to, ran_to_shows,
    sessions_hold,
};
pub use standing::{
    reached_are_trees, reached_have_one_root, reached_unfold, settled_have_children,
    settled_number_once, settled_show_nodes, settled_show_sides, settled_stand_once,
};
