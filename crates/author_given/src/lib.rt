//! Props with children: what a component is given of its own, and the components that stand in it,
//! each with its props. Written once, for every application.
#![tactic(auto)]

mod laws;
mod props;

pub use laws::given_tests;
pub use props::{Given, Inside};
