//! What is called round each post.

/// Called by a poster's thread before and after each post, with the poster's number and the number
/// that the post has among its accepted ones. A gate may hold a poster back.
pub trait Gate: Sync + Drop {
    fn before(&self, poster: u64, seq: u64);

    fn after(&self, poster: u64, seq: u64);
}

/// The gate that does nothing.
#[derive(Clone, Copy, Debug, PartialEq, Eq)]
pub struct NoGate;

impl Gate for NoGate {
    fn before(&self, _poster: u64, _seq: u64) {}

    fn after(&self, _poster: u64, _seq: u64) {}
}
