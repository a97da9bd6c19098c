//! Copies of trees and of what stands in their slots. A tree and its copies share what they hold.

ghost use Rattle.std.specs.Prelude.{◌≡◌, IfOk};

use crate::parts::Parts;
use crate::{
    DynamicNode, Element, ErrorBoundaryProps, FragmentProps, SuspenseBoundaryProps, VComponent,
    VNode,
};
use rt_values::{Boxed, OutOfMemory, Part, both};
use std::alloc::Global;

impl<P: Parts> VNode<P> {
    /// An equal tree.
    pub fn copy(&self, alloc: Global) -> Result<VNode<P>, OutOfMemory>
        ensures { IfOk result (λ copied. copied ≡ self.now) }
    {
        let slots = both(self.dynamic_nodes.share(), self.dynamic_attrs.share());
        let (template, (dynamic_nodes, dynamic_attrs)) = both(self.template.copy(alloc), slots)?;
        Ok(VNode {
            template,
            dynamic_nodes,
            dynamic_attrs,
        })
    }
}

impl<P: Parts> DynamicNode<P> {
    /// An equal value of a slot.
    pub fn copy(&self, alloc: Global) -> Result<DynamicNode<P>, OutOfMemory>
        ensures { IfOk result (λ copied. copied ≡ self.now) }
    {
        match self {
            DynamicNode::Text(text) => Ok(DynamicNode::Text(text.copy(alloc)?)),
            DynamicNode::Placeholder => Ok(DynamicNode::Placeholder),
            DynamicNode::Component(component) => {
                Ok(DynamicNode::Component(component.copy(alloc)?))
            }
            DynamicNode::Fragment(trees) => Ok(DynamicNode::Fragment(trees.share()?)),
        }
    }
}

impl<P: Parts> VComponent<P> {
    /// An equal component with equal props.
    pub fn copy(&self, alloc: Global) -> Result<VComponent<P>, OutOfMemory>
        ensures { IfOk result (λ copied. copied ≡ self.now) }
    {
        match self {
            VComponent::App { component, props } => {
                let (component, props) = both(component.copy(alloc), props.copy(alloc))?;
                Ok(VComponent::App { component, props })
            }
            VComponent::Fragment(props) => Ok(VComponent::Fragment(props.copy(alloc)?)),
            VComponent::ErrorBoundary(props) => Ok(VComponent::ErrorBoundary(props.copy(alloc)?)),
            VComponent::SuspenseBoundary(props) => {
                Ok(VComponent::SuspenseBoundary(props.copy(alloc)?))
            }
            VComponent::Root(props) => Ok(VComponent::Root(props.copy(alloc)?)),
        }
    }
}

impl<P: Parts> FragmentProps<P> {
    /// Equal props.
    pub fn copy(&self, alloc: Global) -> Result<FragmentProps<P>, OutOfMemory>
        ensures { IfOk result (λ copied. copied ≡ self.now) }
    {
        Ok(FragmentProps {
            children: copy_children(alloc, &self.children)?,
        })
    }
}

impl<P: Parts> ErrorBoundaryProps<P> {
    /// Equal props.
    pub fn copy(&self, alloc: Global) -> Result<ErrorBoundaryProps<P>, OutOfMemory>
        ensures { IfOk result (λ copied. copied ≡ self.now) }
    {
        let children = copy_children(alloc, &self.children);
        let (children, handle_error) = both(children, self.handle_error.copy(alloc))?;
        Ok(ErrorBoundaryProps {
            children,
            handle_error,
        })
    }
}

impl<P: Parts> SuspenseBoundaryProps<P> {
    /// Equal props.
    pub fn copy(&self, alloc: Global) -> Result<SuspenseBoundaryProps<P>, OutOfMemory>
        ensures { IfOk result (λ copied. copied ≡ self.now) }
    {
        let children = copy_children(alloc, &self.children);
        let (children, fallback) = both(children, self.fallback.copy(alloc))?;
        Ok(SuspenseBoundaryProps { children, fallback })
    }
}

// A copy of the children of a built-in component: of a tree, or of the error in its place.
fn copy_children<P: Parts>(
    alloc: Global,
    children: &Boxed<Element<P>>,
) -> Result<Boxed<Element<P>>, OutOfMemory>
    ensures { IfOk result (λ copied. copied ≡ children.now) }
{
    match children.get() {
        Ok(tree) => Boxed::new(alloc, Ok(tree.copy(alloc)?)),
        Err(error) => Boxed::new(alloc, Err(error.copy(alloc)?)),
    }
}
