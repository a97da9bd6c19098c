//! Memos and resources as definitions: what their formulas are, and what a poll of their tasks does;
//! and that a formula, which only looks, is decided by what it looked at.
#![tactic(auto)]

mod laws;

pub use laws::{
    first_polls_refused, looking_decides, looking_reads, memos_first_poll, memos_poll,
    resources_first_poll, resources_poll,
};
