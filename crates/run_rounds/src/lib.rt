//! What a program's calls do on a machine, turn after turn: the build alone, units up to where a
//! call ends, the listeners of an event, renders while suspended, the removal of all scopes.
#![tactic(auto)]

mod building;
mod closing;
mod hearing;
mod running;
mod suspended;

pub use building::build_report;
pub use closing::close;
pub use hearing::handle;
pub use running::run_report;
pub use suspended::{poll_suspended, render_suspended};
