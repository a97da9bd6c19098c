//! Signals over cells: to be read, to be set, and to be read in a reactive context, so that a task
//! derives another signal of them; and signals of memos and resources. For every application.
#![tactic(auto)]

mod kept;
mod signal;

pub use signal::{Pair, Signal, own_pair, spawn_once, still_waking, waking};
