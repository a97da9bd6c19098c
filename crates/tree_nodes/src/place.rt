//! Where a node of a scope stands.

use rt_values::{ScopeId, Shared};

/// One step down to a node: the slot of a fragment, and the position of an item in it.
#[derive(Clone, Copy, Debug, PartialEq, Eq)]
pub struct Step {
    pub slot: u64,
    pub position: u64,
}

/// Where a node of a scope stands. What it shares with other places takes no room.
#[derive(Debug, Drop)]
pub struct Place {
    pub scope: ScopeId,
    /// Whether it stands in the block of a fallback.
    pub fallback: bool,
    /// The steps to the innermost template, from the scope's own tree inwards.
    pub steps: Shared<Step>,
    /// The path in the innermost template. A slot's node has the path of its slot.
    pub path: Shared<u8>,
}
