//! Laws on applications of pages: only listeners and inputs write the values of their cells, and what
//! the listeners of an event make of these values; and on a page, and a write, in any application.
//!
//! The functions have empty bodies: what each claims of the definitions is its contract.
#![tactic(auto)]

mod one_page;
mod updating;
mod writing;

pub use one_page::{one_page_shows, one_read_shows};
pub use updating::{
    events_update, heard_entries_update, kept_pages_ask_nothing, listeners_update, pages_keep_cells,
};
pub use writing::heard_entries_write;
