//! Lemmas on truth values, numbers, lists and values that may be none, which the proofs of many
//! crates name.
//!
//! They stand in proofs/: the code has no function here.
#![tactic(auto)]
