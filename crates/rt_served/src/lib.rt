//! An application served as a page in pieces: first the page, and then with each wake a piece for
//! each boundary that turned to its children.
#![tactic(auto)]

mod opening;
mod putting;
mod refusal;
mod served;
mod waking;

pub use refusal::ServeFault;
pub use served::serve;
