//! A runtime that a program keeps and calls.
#![tactic(auto)]

mod asking;
mod contexts;
mod dom;
mod errors;
mod events;
mod looking;
mod making;
mod rendering;
mod suspense;
mod tasks;

pub use dom::VirtualDom;
pub use rt_boundary::{ErrorContext, SuspenseContext};
pub use rt_inbox::Drained;
pub use rt_scopes::{ScopeState, Scopes};
pub use run_answers::DomFault;
pub use run_reports::{
    Counter, Entry, Fault, Input, Limits, Msg, Poll, Post, Report, SessionFault,
};
pub use tasks::{TaskCalls, task_new};
pub use tree_nodes::{Place, Step};
