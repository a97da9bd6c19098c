//! What an inbox answers to calls in a fixed order.

mod calls;
mod cases;
