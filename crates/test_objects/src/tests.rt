//! What the objects of edits, reports and faults say.

mod edits;
mod reports;
