//! Trees in slots: several, one or none, and the components that are built in.
ghost use Rattle.std.specs.Prelude.{◌≡◌, IfOk};
ghost use Rattle.author_pieces.specs.Markup as markup;

use crate::pieces::{Piece, hole};
use rt_values::{Boxed, List, OutOfMemory, Shared};
use std::alloc::Global;
use tree_nodes::{
    DynamicNode, Element, ErrorBoundaryProps, ErrorHandler, Fallback, FragmentProps, Parts,
    SuspenseBoundaryProps, VComponent, VNode,
};

/// Several trees, or a placeholder where there is none.
pub fn several<P: Parts>(alloc: Global, trees: List<VNode<P>>) -> Result<Piece<P>, OutOfMemory>
    ensures piece { IfOk result (λ piece. piece ≡ markup.several trees) }
{
    if trees.is_empty() {
        return hole(alloc, DynamicNode::Placeholder);
    }
    hole(
        alloc,
        DynamicNode::Fragment(Shared::from_list(alloc, trees)?),
    )
}

/// A tree, or a placeholder where there is none.
pub fn when<P: Parts>(alloc: Global, tree: Option<VNode<P>>) -> Result<Piece<P>, OutOfMemory>
    ensures piece { IfOk result (λ piece. piece ≡ markup.when tree) }
{
    match tree {
        Some(tree) => hole(alloc, DynamicNode::Fragment(Shared::one(alloc, tree)?)),
        None => hole(alloc, DynamicNode::Placeholder),
    }
}

/// A fragment, which is a scope of its own, around children.
pub fn fragment<P: Parts>(alloc: Global, children: Element<P>) -> Result<Piece<P>, OutOfMemory>
    ensures piece { IfOk result (λ piece. piece ≡ markup.fragment children) }
{
    let children = Boxed::new(alloc, children)?;
    let fragment = VComponent::Fragment(FragmentProps { children });
    hole(alloc, DynamicNode::Component(fragment))
}

/// An error boundary around children.
pub fn error_boundary<P: Parts>(
    alloc: Global,
    children: Element<P>,
    handle_error: ErrorHandler<P>,
) -> Result<Piece<P>, OutOfMemory>
    ensures piece { IfOk result (λ piece. piece ≡ markup.error_boundary children handle_error) }
{
    let children = Boxed::new(alloc, children)?;
    let boundary = VComponent::ErrorBoundary(ErrorBoundaryProps {
        children,
        handle_error,
    });
    hole(alloc, DynamicNode::Component(boundary))
}

/// A suspense boundary around children.
pub fn suspense_boundary<P: Parts>(
    alloc: Global,
    children: Element<P>,
    fallback: Fallback<P>,
) -> Result<Piece<P>, OutOfMemory>
    ensures piece { IfOk result (λ piece. piece ≡ markup.suspense_boundary children fallback) }
{
    let children = Boxed::new(alloc, children)?;
    let boundary = VComponent::SuspenseBoundary(SuspenseBoundaryProps { children, fallback });
    hole(alloc, DynamicNode::Component(boundary))
}
