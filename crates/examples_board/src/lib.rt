//! A board: a card in which a desk stands. Its news are refused until someone tries again, a letter
//! is waited for, and a log counts that news came and that a refusal went.
#![tactic(auto)]

mod board;
mod bodies;
mod faces;
mod laws;
mod parts;

pub use board::{Board, Boarded};
pub use laws::{news_show, retry_shows_news};
pub use parts::{Cells, Component, Loading, Props, given, standing};
