//! What a walk over an old tree and a new one meets, kept in order.
#![tactic(auto)]

mod met;
mod planning;

pub use met::Met;
pub use planning::Planning;
