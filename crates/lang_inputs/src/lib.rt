//! From the bytes of one input to the input that they are, exactly where they are in its form.
#![tactic(auto)]

mod reading;

pub use reading::read_input;
