//! The tables, a file each.

mod lines;
mod meeting;
mod reports;
