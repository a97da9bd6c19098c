//! Laws on what scopes provide: what a program that keeps to its kinds of contexts leaves of others.
//!
//! The functions have empty bodies: what each claims of the definitions is its contract.
#![tactic(auto)]

mod provided;

pub use provided::{commands_keep_others, programs_keep_others};
