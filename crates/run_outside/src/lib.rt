//! What a session has to do with what is outside of it: the inputs that it takes in and the listeners
//! that hear an event, the edits that its sink takes, and why it ends early.
#![tactic(auto)]

mod awaiting;
mod ended;
mod hearing;
mod input;
mod writing;

pub use awaiting::{Awaiting, InScope};
pub use ended::Ended;
pub use hearing::Hearing;
pub use input::{first_waiting, further, hearers, look_where_quiet, post_messages, take_in};
pub use writing::write_edits;
