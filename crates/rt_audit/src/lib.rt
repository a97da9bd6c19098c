//! A checker of recorded runs: whether the runtime could have made a log that somebody kept.
#![tactic(auto)]

mod comparing;
mod following;
mod judging;
mod laws;
mod verdict;

pub use judging::audit;
pub use laws::runs_are_accepted;
pub use verdict::Verdict;
