//! What is told of an application that is given line by line, as objects of JSON: one line for each
//! edit, report, fault and refusal. And the two forms, this one and lines of text.
#![tactic(auto)]

mod edits;
mod faults;
mod laws;
mod nodes;
mod object;
mod object_lines;
mod reports;
mod taken;
mod tells;

pub use edits::edit_object;
pub use faults::fault_object;
pub use laws::objects_are_read;
pub use object_lines::ObjectLines;
pub use reports::{refusal_object, report_object};
pub use tells::Tells;
