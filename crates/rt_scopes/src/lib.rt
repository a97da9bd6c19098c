//! The sides of scopes, and calls of an application and what they lead to: a run of a body up to its
//! agenda, effects, polls, listeners, and the clean-ups of a removal. The names of scopes and calls are
//! given out here.
#![tactic(auto)]

mod agenda;
mod answers;
mod bodies;
mod children;
mod effects;
mod going;
mod listeners;
mod polls;
mod removal;
mod runs;
mod scopes;
mod trees;

pub use agenda::start_agenda;
pub use author_calls::{App, BodyCx, BodyTurn, Calls, Cx, TaskStep, Turn, TurnParts};
pub use children::{children_below, drop_fallback, fed_child, side_scopes};
pub use going::{Known, next_removed};
pub use run_records::{
    Command, Counter, CxFault, Firsts, Hook, Provided, Provisions, Rows, ScopeRow, World,
};
pub use run_reports::Fault;
pub use run_state::{NotBuilt, ScopeState, get_scope};
pub use runs::row_items;
pub use scopes::{Left, Scopes};
pub use trees::placeholder_or;
