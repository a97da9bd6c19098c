//! What a pass through the queue knows.

use crate::message::{Msg, Post};
use std::collections::LinkedList;

/// What a thread knows by its pass. No value of it is made.
pub enum View {
    /// A poster's number, and its accepted posts.
    Posting {
        number: u64,
        posts: LinkedList<Post>,
    },
    /// The messages that the owner took, how many posters were made, and the number and the posts
    /// of each poster whose pass was joined to the owner's.
    Owning {
        taken: LinkedList<Msg>,
        made: u64,
        joined: LinkedList<(u64, LinkedList<Post>)>,
    },
    /// A pass that was joined to another.
    Spent,
}
