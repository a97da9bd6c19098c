//! The application that a source describes, as the runtime runs it.
#![tactic(auto)]

mod attributes;
mod bodies;
mod caller;
mod derived;
mod evaluation;
mod filling;
mod inputs;
mod memos;
mod plain;
mod rounds;
mod running;
mod script;
mod state;

pub use inputs::{inputs_of, posts_of};
pub use memos::Deriver;
pub use script::Script;
pub use state::TaskState;
