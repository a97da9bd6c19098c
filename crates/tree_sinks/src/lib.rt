//! Sinks of edits by one call: what takes an edit at a time is a sink of all eight calls.
#![tactic(auto)]

mod takes;

pub use takes::{ByEdit, TakesEdits};
