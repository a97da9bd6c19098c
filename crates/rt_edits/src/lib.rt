//! The document that a renderer shows, its edits, and the sinks that edits are written to.
#![tactic(auto)]

mod change;
mod doc_node;
mod document;
mod edit;
mod failing;
mod faults;
mod fresh;
mod ordered;
mod search;
mod sink;
mod sinks;

pub use doc_node::{DocAttr, DocKind, DocNode};
pub use document::{DocFault, Document};
pub use edit::Edit;
pub use failing::FailingMutations;
pub use ordered::{put_attribute, put_listener};
pub use sink::{SinkError, WriteMutations};
pub use sinks::{Mutations, NoOpMutations};
