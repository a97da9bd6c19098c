//! What a recorded log is judged to be.

/// What a recorded log is judged to be.
#[derive(Clone, Copy, Debug, PartialEq, Eq)]
pub enum Verdict {
    /// The runtime could have made it.
    Accepted,
    /// It is good up to an entry of one of its lists, and there it isn't. Lists and entries count
    /// from 0; where a list ends too early, the entry is the one that is wanting.
    Refused { report: u64, entry: u64 },
}
