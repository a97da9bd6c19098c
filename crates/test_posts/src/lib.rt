//! Tests of posted sessions: what is printed of them, and that threads post while the application
//! is called.
#![tactic(auto)]

#[cfg(test)]
mod tests;
