//! Laws of a patch that is served step by step: what it knows when it passes a mark, and what it
//! writes from its start to its end.
//!
//! The functions have empty bodies: what each claims of the definitions is its contract.
#![tactic(auto)]

mod brought;
mod done;
mod full;
mod kept;
mod meets;
mod written;

pub use brought::{brought_is_known, new_children_given};
pub use done::{run_opens, run_tells};
pub use full::{first_fills, run_fills};
pub use kept::kept_starts;
pub use meets::{blocks_meet, run_renews};
pub use written::{run_brings, run_hides, run_is_written};
