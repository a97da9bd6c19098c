//! An application that is given line by line: the first line is the application, each further one an
//! input, and each is answered before the next one is read.
#![tactic(auto)]

mod answers;
mod refused;
mod streamed;
mod streaming;

pub use streamed::{asks_for_stream, show_streamed};
pub use streaming::Streaming;
