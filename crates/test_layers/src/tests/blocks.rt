//! Builds and patches by examples.

mod cases;
mod printing;
mod serving;
mod trees;
