//! What a walk over an old tree and a new one meets, and what each thing that it meets leads to.
//!
//! The definitions stand in specs/: the code has no function here.
#![tactic(auto)]
