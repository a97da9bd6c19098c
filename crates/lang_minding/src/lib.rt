//! A law alone: the memos and resources of each session of a source are kept.
#![tactic(auto)]

mod laws;

pub use laws::sources_keep_memos;
