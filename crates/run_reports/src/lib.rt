//! What a session is given and what it tells: limits, inputs, the log, reports and faults.
#![tactic(auto)]

mod entry;
mod fault;
mod input;
mod limits;
mod poll;
mod report;

pub use entry::{Entry, bodies_in, units_in};
pub use fault::{Fault, SessionFault};
pub use input::Input;
pub use limits::{Limits, USUAL};
pub use poll::{Poll, poll_of};
pub use report::Report;
pub use rt_inbox::{Msg, Post};
pub use run_records::Counter;
