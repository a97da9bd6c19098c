//! What a scope showed last.

ghost use Rattle.std.specs.Prelude.{◌≡◌, ◌↔◌, IsTrue, IfOk};
ghost use Rattle.tree_nodes.specs.Shown.{last_of, tree_of};

use crate::error::RenderError;
use crate::parts::Parts;
use crate::{Element, VNode};
use rt_values::{OutOfMemory, both};
use std::alloc::Global;

/// What a scope showed last: a tree of its body, or a placeholder and why.
#[derive(Drop)]
pub enum LastRenderedNode<P: Parts> {
    Real(VNode<P>),
    Placeholder(VNode<P>, RenderError),
}

impl<P: Parts> LastRenderedNode<P> {
    /// What is shown of a body's answer: its tree, or a placeholder in an error's place.
    pub fn new(alloc: Global, node: Element<P>) -> Result<LastRenderedNode<P>, OutOfMemory>
        ensures { IfOk result (λ shown. shown ≡ last_of node) }
    {
        match node {
            Ok(tree) => Ok(LastRenderedNode::Real(tree)),
            Err(error) => {
                let tree = VNode::placeholder(alloc)?;
                Ok(LastRenderedNode::Placeholder(tree, error))
            }
        }
    }

    /// The tree that is shown.
    pub fn as_vnode(&self) -> &VNode<P>
        ensures { result.now ≡ tree_of self.now }
    {
        match self {
            LastRenderedNode::Real(tree) => tree,
            LastRenderedNode::Placeholder(tree, _) => tree,
        }
    }

    /// Whether the two are equal.
    pub fn same(&self, other: &LastRenderedNode<P>) -> bool
        ensures { IsTrue result ↔ (self.now ≡ other.now) }
    {
        match (self, other) {
            (LastRenderedNode::Real(left), LastRenderedNode::Real(right)) => left.same(right),
            (
                LastRenderedNode::Placeholder(left, own),
                LastRenderedNode::Placeholder(right, others),
            ) => left.same(right) & own.same(others),
            _ => false,
        }
    }

    /// An equal one.
    pub fn copy(&self, alloc: Global) -> Result<LastRenderedNode<P>, OutOfMemory>
        ensures { IfOk result (λ copied. copied ≡ self.now) }
    {
        match self {
            LastRenderedNode::Real(tree) => Ok(LastRenderedNode::Real(tree.copy(alloc)?)),
            LastRenderedNode::Placeholder(tree, error) => {
                let (tree, error) = both(tree.copy(alloc), error.copy(alloc))?;
                Ok(LastRenderedNode::Placeholder(tree, error))
            }
        }
    }
}
