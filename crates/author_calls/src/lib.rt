//! One call of an application: what it can look at, what it can ask for, and what it leaves.
#![tactic(auto)]

mod application;
mod calls;
mod cx;
mod entered;
mod made;
mod programs;
mod turn;

pub use application::{App, TaskStep};
pub use calls::{Calls, no_calls};
pub use cx::{BodyCx, Cx, InBody, Plain};
pub use programs::{
    calls_stand_for, cells_go_on, contexts_go_on, errors_go_on, given_goes_on, hooks_go_on,
    reads_go_on, tasks_go_on,
};
pub use turn::{BodyTurn, Turn, TurnParts};
