//! What a program's calls ask of a runtime's state alone, without its machine, and how they are
//! answered: whether something is owed and where a call ends, what suspended calls pass over, who
//! provides a value, what stands below a scope.
#![tactic(auto)]

mod descent;
mod kept;
mod numbers;
mod owed;
mod passing;
mod poll;
mod providers;
mod ranking;
mod refusal;
mod remaining;
mod resolved;
mod stage;
mod until;
mod waiting;

pub use descent::is_descendant;
pub use kept::{context_target, has_cell, live_scopes, value_of};
pub use numbers::{after, named};
pub use passing::{polling_rest, rendering_rest};
pub use providers::{provided_above, provided_here};
pub use ranking::ranked_scopes;
pub use refusal::DomFault;
pub use remaining::suspended_remains;
pub use resolved::take_resolved;
pub use stage::{Stage, failed_unless};
pub use until::{Until, ends, leave};
pub use waiting::{waits, waits_suspended};
