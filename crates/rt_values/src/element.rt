//! The numbers of nodes.

/// The number of a node of the document. 0 is the document's root container.
#[derive(Clone, Copy, Debug, PartialEq, Eq, PartialOrd, Ord, Hash)]
pub struct ElementId(pub u64);
