//! What a runtime keeps of each scope, what a call of an application can look at there, and what it
//! can ask for.
#![tactic(auto)]

mod command;
mod faults;
mod holders;
mod kinds;
mod provisions;
mod rest;
mod rows;
mod world;

pub use command::Command;
pub use faults::{Counter, CxFault};
pub use holders::Holders;
pub use kinds::{AFTER_RENDER, BEFORE_RENDER, CLEAN_UP};
pub use provisions::Provisions;
pub use rest::{Rest, Scope, is_error_boundary};
pub use rows::{Hook, Provided, Rows, ScopeRow};
pub use world::{Firsts, World};
