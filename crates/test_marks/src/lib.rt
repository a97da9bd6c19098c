//! Tests of what takes no memory.
#![tactic(auto)]

#[cfg(test)]
mod marks;
