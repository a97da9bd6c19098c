//! What the program prints: a line for each edit, for each report, for each message that was taken,
//! and for a fault. Each line is bytes of UTF-8, with the newline that ends it.
#![tactic(auto)]

mod edit_lines;
mod edits;
mod faults;
mod line;
mod messages;
mod nodes;
mod reports;
mod taken;

pub use edit_lines::EditLines;
pub use edits::edit_line;
pub use faults::fault_line;
pub use messages::taken_line;
pub use reports::report_line;
