//! What is owed, as the definitions have it: marks and wakes that are posted, scopes that were seen,
//! tasks that are queued. What runs is the scheduler's queues.
#![tactic(auto)]

mod numbered;
mod owed;
mod told;

pub use owed::Owed;
