//! The machine: a session's state with what is open beside it, served one move a turn, and the step
//! that takes one input in. Each call takes the application and the count of its calls, and keeps
//! neither.
#![tactic(auto)]

mod apart;
mod hearing;
mod machine;
mod serving;
mod taking;
mod turn;
mod unit;
mod writing;

pub use machine::Machine;
