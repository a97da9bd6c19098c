//! Which value of the definitions each node of the document and each edit is.
//!
//! The definitions stand in specs/: the code has no function here.
#![tactic(auto)]
