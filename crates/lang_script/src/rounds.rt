//! Built-in components round children.
ghost use Rattle.std.specs.Prelude.{◌≡◌, IfOk};
ghost use Rattle.rt_model.specs.Tree.{component_slot, Fragment, ErrorBoundary, SuspenseBoundary, rendered};
ghost use Rattle.tree_mirror.specs.Sealed as mirror;

use crate::script::Script;
use lang_views::Props;
use rt_values::{Boxed, OutOfMemory};
use std::alloc::Global;
use tree_nodes::{
    DynamicNode, ErrorBoundaryProps, ErrorHandler, Fallback, FragmentProps, SuspenseBoundaryProps,
    VComponent, VNode,
};

/// A fragment round children.
#[tactic(auto, using(crate::proofs::Fills::filling))]
pub(crate) fn fragment(
    alloc: Global,
    children: VNode<Script>,
) -> Result<DynamicNode<Script>, OutOfMemory>
    ensures node { IfOk result (λ node. mirror.slot_of node
        ≡ component_slot (Fragment (rendered (mirror.tree_of children)))) }
{
    let children = Boxed::new(alloc, Ok(children))?;
    Ok(DynamicNode::Component(VComponent::Fragment(FragmentProps { children })))
}

/// An error boundary round children.
#[tactic(auto, using(crate::proofs::Fills::filling))]
pub(crate) fn error_boundary(
    alloc: Global,
    kids: VNode<Script>,
    handler: Option<(u64, Props)>,
) -> Result<DynamicNode<Script>, OutOfMemory>
    ensures node { IfOk result (λ node. mirror.slot_of node
        ≡ component_slot (ErrorBoundary (rendered (mirror.tree_of kids)) handler)) }
{
    let handle_error = match handler {
        Some((component, props)) => ErrorHandler::Component(component, props),
        None => ErrorHandler::Default,
    };
    let children = Boxed::new(alloc, Ok(kids))?;
    Ok(DynamicNode::Component(VComponent::ErrorBoundary(ErrorBoundaryProps {
        children,
        handle_error,
    })))
}

/// A suspense boundary round children.
#[tactic(auto, using(crate::proofs::Fills::filling))]
pub(crate) fn suspense_boundary(
    alloc: Global,
    kids: VNode<Script>,
    fallback: Option<(u64, Props)>,
) -> Result<DynamicNode<Script>, OutOfMemory>
    ensures node { IfOk result (λ node. mirror.slot_of node
        ≡ component_slot (SuspenseBoundary (rendered (mirror.tree_of kids)) fallback)) }
{
    let fallback = match fallback {
        Some((component, props)) => Fallback::Component(component, props),
        None => Fallback::Placeholder,
    };
    let children = Boxed::new(alloc, Ok(kids))?;
    Ok(DynamicNode::Component(VComponent::SuspenseBoundary(SuspenseBoundaryProps {
        children,
        fallback,
    })))
}
