//! Trees: a template, and the values of its slots.

ghost use Rattle.std.specs.Prelude.{◌≡◌, ◌↔◌, IsTrue, IfOk, Ok, true, [], ◌∷◌};
ghost use Rattle.tree_nodes.specs.NodeTest.{fits};
ghost use Rattle.tree_nodes.specs.Places.{InTemplate, APlaceholder, node_places, slot_places};
ghost use Rattle.tree_nodes.specs.Shown.{placeholder_tree};

use crate::attribute::Attribute;
use crate::error::RenderError;
use crate::parts::Parts;
use crate::template::{Template, TemplateNode, TemplateParts};
use rt_values::{Boxed, List, OutOfMemory, Part, Shared, Text, both};
use std::alloc::Global;

/// What a component's body answers: a tree, or an error or suspension.
pub type Element<P> = Result<VNode<P>, RenderError>;

/// A tree.
#[cycle(vnode)]
#[derive(Drop)]
pub struct VNode<P: Parts> {
    pub template: Template,
    /// The value of each node slot, by number.
    pub dynamic_nodes: Shared<DynamicNode<P>>,
    /// The attributes of each attribute slot, by number.
    pub dynamic_attrs: Shared<List<Attribute<P>>>,
}

/// The value of a node slot.
#[cycle(vnode)]
#[derive(Drop)]
pub enum DynamicNode<P: Parts> {
    Text(Text),
    Placeholder,
    Component(VComponent<P>),
    Fragment(Shared<VNode<P>>),
}

/// A component with its props: one of the application, or one that is built in.
#[cycle(vnode)]
#[derive(Drop)]
pub enum VComponent<P: Parts> {
    App {
        component: P::Component,
        props: P::Props,
    },
    Fragment(FragmentProps<P>),
    ErrorBoundary(ErrorBoundaryProps<P>),
    SuspenseBoundary(SuspenseBoundaryProps<P>),
    Root(RootProps<P>),
}

/// The props of a fragment, which shows its children.
#[cycle(vnode)]
#[derive(Drop)]
pub struct FragmentProps<P: Parts> {
    pub children: Boxed<Element<P>>,
}

/// The props of an error boundary, which shows its children, or its handler once an error was
/// thrown below it.
#[cycle(vnode)]
#[derive(Drop)]
pub struct ErrorBoundaryProps<P: Parts> {
    pub children: Boxed<Element<P>>,
    pub handle_error: ErrorHandler<P>,
}

/// What an error boundary shows of an error.
#[derive(Drop)]
pub enum ErrorHandler<P: Parts> {
    /// The error's text, in red.
    Default,
    Component(P::Component, P::Props),
}

/// The props of a suspense boundary, which shows its children, or its fallback while one of them
/// waits.
#[cycle(vnode)]
#[derive(Drop)]
pub struct SuspenseBoundaryProps<P: Parts> {
    pub children: Boxed<Element<P>>,
    pub fallback: Fallback<P>,
}

/// What a suspense boundary shows while its children wait.
#[derive(Drop)]
pub enum Fallback<P: Parts> {
    Placeholder,
    Component(P::Component, P::Props),
}

/// The props of the wrapper round an application's root component.
#[derive(Drop)]
pub struct RootProps<P: Parts> {
    pub component: P::Component,
    pub props: P::Props,
}

impl<P: Parts> VNode<P> {
    /// The tree of one root that is a placeholder slot.
    pub fn placeholder(alloc: Global) -> Result<VNode<P>, OutOfMemory>
        ensures tree { IfOk result (λ tree. tree ≡ placeholder_tree) }
        ensures fits { IfOk result (λ tree. fits tree ≡ true) }

        // Its one node of the document is the placeholder, and it has no component slot.
        ensures nodes { IfOk result (λ tree. node_places tree ≡
            (InTemplate tree.template (0 ∷ []) ∷ [], APlaceholder) ∷ []) }
        ensures slots { IfOk result (λ tree. slot_places tree ≡ []) }
    {
        let path = List::from_slice(alloc, &[0])?;
        let template = Template::of_one(alloc, TemplateNode::Dynamic { id: 0 }, path);
        let dynamic_nodes = Shared::one(alloc, DynamicNode::Placeholder);
        let (template, dynamic_nodes) = both(template, dynamic_nodes)?;
        Ok(VNode {
            template,
            dynamic_nodes,
            dynamic_attrs: Shared::empty(),
        })
    }

    /// The placeholder tree as a body's answer.
    pub fn empty(alloc: Global) -> Result<Element<P>, OutOfMemory>
        ensures { IfOk result (λ answer. answer ≡ Ok placeholder_tree) }
    {
        Ok(Ok(VNode::placeholder(alloc)?))
    }
}

impl<P: Parts> ErrorHandler<P> {
    /// Whether the two are equal.
    pub fn same(&self, other: &ErrorHandler<P>) -> bool
        ensures { IsTrue result ↔ (self.now ≡ other.now) }
    {
        match (self, other) {
            (ErrorHandler::Default, ErrorHandler::Default) => true,
            (ErrorHandler::Component(left, own), ErrorHandler::Component(right, others)) => {
                left.same(right) && own.same(others)
            }
            _ => false,
        }
    }

    /// An equal one.
    pub fn copy(&self, alloc: Global) -> Result<ErrorHandler<P>, OutOfMemory>
        ensures { IfOk result (λ copied. copied ≡ self.now) }
    {
        match self {
            ErrorHandler::Default => Ok(ErrorHandler::Default),
            ErrorHandler::Component(component, props) => {
                let (component, props) = both(component.copy(alloc), props.copy(alloc))?;
                Ok(ErrorHandler::Component(component, props))
            }
        }
    }
}

impl<P: Parts> Fallback<P> {
    /// Whether the two are equal.
    pub fn same(&self, other: &Fallback<P>) -> bool
        ensures { IsTrue result ↔ (self.now ≡ other.now) }
    {
        match (self, other) {
            (Fallback::Placeholder, Fallback::Placeholder) => true,
            (Fallback::Component(left, own), Fallback::Component(right, others)) => {
                left.same(right) && own.same(others)
            }
            _ => false,
        }
    }

    /// An equal one.
    pub fn copy(&self, alloc: Global) -> Result<Fallback<P>, OutOfMemory>
        ensures { IfOk result (λ copied. copied ≡ self.now) }
    {
        match self {
            Fallback::Placeholder => Ok(Fallback::Placeholder),
            Fallback::Component(component, props) => {
                let (component, props) = both(component.copy(alloc), props.copy(alloc))?;
                Ok(Fallback::Component(component, props))
            }
        }
    }
}

impl<P: Parts> RootProps<P> {
    /// Whether component and props are equal.
    pub fn same(&self, other: &RootProps<P>) -> bool
        ensures { IsTrue result ↔ (self.now ≡ other.now) }
    {
        self.component.same(&other.component) && self.props.same(&other.props)
    }

    /// Equal props.
    pub fn copy(&self, alloc: Global) -> Result<RootProps<P>, OutOfMemory>
        ensures { IfOk result (λ copied. copied ≡ self.now) }
    {
        let (component, props) = both(self.component.copy(alloc), self.props.copy(alloc))?;
        Ok(RootProps { component, props })
    }
}
