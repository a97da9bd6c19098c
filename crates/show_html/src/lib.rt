//! The program that serves an application as a page in pieces.
#![tactic(auto)]

mod paged;

pub use paged::{asks_for_page, show_paged, show_paged_and_say};
