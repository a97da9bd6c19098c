//! Tests of an inbox whose posters post from threads of their own.
#![tactic(auto)]

#[cfg(test)]
mod tests;
