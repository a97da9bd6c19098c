//! What the words of the program ask for, what is read for it, and the lines that are put of it.
#![tactic(auto)]

mod agreements;
mod generating;
mod reason;
mod source;
mod summary;
mod words;
mod writing;

pub use agreements::{failures_agree, listeners_agree, most_bytes_agree, run_texts_agree};
pub use generating::generated;
pub use reason::{Stop, fault_said};
pub use source::{Prepared, bytes_of, prepare, read_application, said, said_where};
pub use summary::summary_line;
pub use words::{Size, Wish, wish_of};
pub use writing::{put_ended_printed, put_printed, put_run};
