//! Boundaries: what is seen of them from outside, and the runs of suspense boundaries, step by
//! step.
#![tactic(auto)]

mod built_in;
mod error_context;
mod fallbacks;
mod parts;
mod steps;
mod suspense_context;

pub use built_in::{Fragment, answer};
pub use error_context::ErrorContext;
pub use run_state::{NotBuilt, ScopeState, get_scope};
pub use steps::boundary_step;
pub use suspense_context::SuspenseContext;
