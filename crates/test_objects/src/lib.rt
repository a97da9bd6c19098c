//! Tests of what is told as objects of JSON, as tables.
#![tactic(auto)]

#[cfg(test)]
mod tests;
