//! What is written of an application that is given line by line. Each function has an empty body: what
//! it claims of the definitions is its contract.
#![tactic(auto)]

mod laws;

pub use laws::{answers_grow, forms_tell_alike, refusals_grow};
