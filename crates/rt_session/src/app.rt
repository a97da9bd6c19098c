//! What an application is: its bodies, what a call of one can look at, and what it leaves.

pub use author_calls::{
    App, BodyCx, BodyTurn, Calls, Cx, InBody, Plain, TaskStep, Turn, TurnParts,
};
pub use rt_cells::{Cells, Source};
pub use run_records::{
    Command, CxFault, Firsts, Hook, Provided, Provisions, Rows, ScopeRow, World,
};
