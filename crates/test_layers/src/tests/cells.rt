//! What the worked cases and a million readers say.

mod cases;
mod steps;
