//! From the bytes of a recorded run to its application and its log, exactly where they are in its form;
//! and why bytes are no source: one line with the place in them, what was wanted there and what was
//! found.
#![tactic(auto)]

mod bodies;
mod forms;
mod leaves;
mod reading;
mod refusals;
mod saying;
mod sources;
mod tables;
mod unknown_words;
mod walk;
mod words;

pub use reading::{Run, read_run};
pub use refusals::refusal_of_run;
pub use sources::{refusal, too_long};
pub use unknown_words::unknown_word;
