//! The state of a runtime: scopes, cells, reactive contexts, tasks and what is owed; and all changes
//! of it that call no application.
#![tactic(auto)]

mod asked;
mod cells;
mod climbs;
mod commands;
mod entering;
mod errors;
mod held;
mod holding;
mod joining;
mod looks;
mod marking;
mod mounting;
mod names;
mod numbers;
mod order;
mod places;
mod posting;
mod provided;
mod ranks;
mod read_order;
mod reading;
mod removal;
mod rereading;
mod scope_state;
mod scopes;
mod sides;
mod sources;
mod state;
mod tasks;

pub use names::{Cause, Posted, Stop, TaskKind, Work};
pub use numbers::{drop_number, join};
pub use ranks::{RankNumbers, Ranks};
pub use read_order::{ReadOrder, Reading};
pub use removal::clean_ups;
pub use scope_state::{NotBuilt, ScopeState, get_scope};
pub use scopes::{holds, is_held, is_suspense_boundary, new_scope, put_side, side_of};
pub use sources::{is_same_source, names_source};
pub use state::{State, TaskRow};
