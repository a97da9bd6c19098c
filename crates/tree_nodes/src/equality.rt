//! Equality of trees and of what stands in their slots, by value.

ghost use Rattle.std.specs.Prelude.{◌≡◌, ◌↔◌, IsTrue};

use crate::parts::Parts;
use crate::{
    DynamicNode, Element, ErrorBoundaryProps, FragmentProps, SuspenseBoundaryProps, VComponent,
    VNode,
};
use rt_values::{Boxed, Part};

impl<P: Parts> VNode<P> {
    /// Whether templates and slots are equal.
    #[cycle(same)]
    pub fn same(&self, other: &VNode<P>) -> bool
        ensures { IsTrue result ↔ (self.now ≡ other.now) }
    {
        self.template.same(&other.template)
            && self.dynamic_attrs.same(&other.dynamic_attrs)
            && same_values(
                self.dynamic_nodes.as_slice(),
                other.dynamic_nodes.as_slice(),
            )
    }
}

// Whether the values of slots are equal, in the same order.
#[cycle(same)]
fn same_values<P: Parts>(left: &[DynamicNode<P>], right: &[DynamicNode<P>]) -> bool
    ensures { IsTrue result ↔ (left.now ≡ right.now) }
{
    if left.len() != right.len() {
        return false;
    }
    for at in 0..left.len() {
        if !left[at].same(&right[at]) {
            return false;
        }
    }
    true
}

impl<P: Parts> DynamicNode<P> {
    /// Whether the two are equal.
    #[cycle(same)]
    pub fn same(&self, other: &DynamicNode<P>) -> bool
        ensures { IsTrue result ↔ (self.now ≡ other.now) }
    {
        match self {
            DynamicNode::Text(left) => match other {
                DynamicNode::Text(right) => left.same(right),
                _ => false,
            },
            DynamicNode::Placeholder => match other {
                DynamicNode::Placeholder => true,
                _ => false,
            },
            DynamicNode::Component(left) => match other {
                DynamicNode::Component(right) => left.same(right),
                _ => false,
            },
            DynamicNode::Fragment(left) => match other {
                DynamicNode::Fragment(right) => same_trees(left.as_slice(), right.as_slice()),
                _ => false,
            },
        }
    }
}

// Whether the items of two fragments are equal.
#[cycle(same)]
fn same_trees<P: Parts>(left: &[VNode<P>], right: &[VNode<P>]) -> bool
    ensures { IsTrue result ↔ (left.now ≡ right.now) }
{
    if left.len() != right.len() {
        return false;
    }
    for at in 0..left.len() {
        if !left[at].same(&right[at]) {
            return false;
        }
    }
    true
}

impl<P: Parts> VComponent<P> {
    /// Whether components and props are equal.
    #[cycle(same)]
    pub fn same(&self, other: &VComponent<P>) -> bool
        ensures { IsTrue result ↔ (self.now ≡ other.now) }
    {
        match self {
            VComponent::App { component, props } => match other {
                VComponent::App {
                    component: other_component,
                    props: other_props,
                } => component.same(other_component) && props.same(other_props),
                _ => false,
            },
            VComponent::Fragment(left) => match other {
                VComponent::Fragment(right) => left.same(right),
                _ => false,
            },
            VComponent::ErrorBoundary(left) => match other {
                VComponent::ErrorBoundary(right) => left.same(right),
                _ => false,
            },
            VComponent::SuspenseBoundary(left) => match other {
                VComponent::SuspenseBoundary(right) => left.same(right),
                _ => false,
            },
            VComponent::Root(left) => match other {
                VComponent::Root(right) => left.same(right),
                _ => false,
            },
        }
    }
}

impl<P: Parts> FragmentProps<P> {
    /// Whether the children are equal.
    #[cycle(same)]
    pub fn same(&self, other: &FragmentProps<P>) -> bool
        ensures { IsTrue result ↔ (self.now ≡ other.now) }
    {
        same_children(&self.children, &other.children)
    }
}

impl<P: Parts> ErrorBoundaryProps<P> {
    /// Whether children and handlers are equal.
    #[cycle(same)]
    pub fn same(&self, other: &ErrorBoundaryProps<P>) -> bool
        ensures { IsTrue result ↔ (self.now ≡ other.now) }
    {
        self.handle_error.same(&other.handle_error)
            && same_children(&self.children, &other.children)
    }
}

impl<P: Parts> SuspenseBoundaryProps<P> {
    /// Whether children and fallbacks are equal.
    #[cycle(same)]
    pub fn same(&self, other: &SuspenseBoundaryProps<P>) -> bool
        ensures { IsTrue result ↔ (self.now ≡ other.now) }
    {
        self.fallback.same(&other.fallback) && same_children(&self.children, &other.children)
    }
}

// Whether the children of built-in components are equal: two trees, or the errors in their places.
#[cycle(same)]
fn same_children<P: Parts>(left: &Boxed<Element<P>>, right: &Boxed<Element<P>>) -> bool
    ensures { IsTrue result ↔ (left.now ≡ right.now) }
{
    match left.get() {
        Ok(tree) => match right.get() {
            Ok(other) => tree.same(other),
            Err(_) => false,
        },
        Err(error) => match right.get() {
            Ok(_) => false,
            Err(other) => error.same(other),
        },
    }
}
