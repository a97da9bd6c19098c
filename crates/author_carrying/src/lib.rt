//! What a library's component needs of an application that it stands in: its parts are among the
//! application's. A library is written once, generic in the application.
#![tactic(auto)]

mod carries;
mod held;

pub use carries::Carries;
pub use held::{carried, read_held, write_held};
