//! Tests of the layers below the runtime, as tables.
#![tactic(auto)]

#[cfg(test)]
mod tests;
