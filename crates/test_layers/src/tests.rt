//! What the worked cases of each layer say.

mod blocks;
mod cells;
mod documents;
mod inbox;
mod pages;
mod sched;
mod trees;
