//! Documents in HTML: nodes written as a text and read back, pages and pieces of pages.
#![tactic(auto)]

mod again;
mod error;
mod fitting;
mod laws;
mod names;
mod pages;
mod plain;
mod reader;
mod spelling;
mod tokens;
mod writer;

pub use error::HtmlError;
pub use laws::{
    nodes_are_spelt_in_tokens, nodes_come_back, plain_is_spelt_alike, spellings_are_apart,
};
pub use names::are_namable;
pub use pages::{page_of, piece_of};
pub use plain::Plain;
pub use reader::read_html;
pub use spelling::write_html;
