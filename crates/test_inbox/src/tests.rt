//! The tables, a file each.

mod posters;
mod ringing;
