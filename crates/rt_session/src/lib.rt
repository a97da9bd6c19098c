//! A session: it builds an application, and then takes in one input after another, handed in or
//! posted by threads.
#![tactic(auto)]

pub mod app;
mod laws;
mod meeting;
mod merges;
mod posted;
mod runner;
mod sitting;

pub use merges::merges_agree;
pub use posted::{Posted, PostedFault, session_posted};
pub use run_reports::{Counter, Entry, Fault, Input, Limits, Msg, Post, Report, SessionFault};
pub use runner::session;
