//! The trees that built-in components answer.
ghost use Rattle.std.specs.Prelude.{◌≡◌, ◌∷◌, [], None, Some, IfOk};
ghost use Rattle.tree_nodes.specs.declared.template.TemplateAttribute.TheVariants as attributes;
ghost use Rattle.tree_nodes.specs.declared.template.TemplateNode.TheVariants as nodes;
ghost use Rattle.rt_model.specs.Boundary.{tree_or_placeholder};
ghost use Rattle.rt_model.specs.Run as run;
ghost use Rattle.rt_model.specs.Tree as model;
ghost use Rattle.tree_mirror.specs.Sealed.{element_of, slot_of, tree_of};

use rt_values::{Boxed, List, OutOfMemory, Shared, Text};
use std::alloc::Global;
use tree_nodes::{
    DynamicNode, Element, ErrorBoundaryProps, ErrorHandler, Fallback, Parts, SuspenseBoundaryProps,
    Template, TemplateAttribute, TemplateNode, VComponent, VNode,
};

/// The tree of this template, whose one slot has this value.
fn block_of<P: Parts>(
    alloc: Global,
    root: TemplateNode,
    path: &[u8],
    value: DynamicNode<P>,
) -> Result<VNode<P>, OutOfMemory>
    ensures { IfOk result (λ tree. tree ≡ record {
      template = record { roots = root ∷ []; node_paths = path.now ∷ []; attr_paths = [] };
      dynamic_nodes = value ∷ [];
      dynamic_attrs = [];
    }) }
{
    let path = List::from_slice(alloc, path)?;
    Ok(VNode {
        template: Template::of_one(alloc, root, path)?,
        dynamic_nodes: Shared::one(alloc, value)?,
        dynamic_attrs: Shared::empty(),
    })
}

/// The tree that is one slot.
fn one_slot<P: Parts>(alloc: Global, value: DynamicNode<P>) -> Result<VNode<P>, OutOfMemory>
    ensures { IfOk result (λ tree. tree_of tree ≡ model.one_slot (slot_of value)) }
{
    block_of(alloc, TemplateNode::Dynamic { id: 0 }, &[0], value)
}

/// A static attribute.
fn fixed(
    alloc: Global,
    namespace: &str,
    name: &str,
    value: &str,
) -> Result<TemplateAttribute, OutOfMemory>
    ensures { IfOk result (λ attribute. attribute
        ≡ attributes.Static name.now (Some namespace.now) value.now) }
{
    Ok(TemplateAttribute::Static {
        name: Text::from_str(alloc, name)?,
        namespace: Some(Text::from_str(alloc, namespace)?),
        value: Text::from_str(alloc, value)?,
    })
}

/// An element whose one child is its tree's slot.
fn element_round_slot(
    alloc: Global,
    tag: &str,
    attrs: Shared<TemplateAttribute>,
) -> Result<TemplateNode, OutOfMemory>
    ensures { IfOk result (λ node. node
        ≡ nodes.Element tag.now None attrs (nodes.Dynamic 0 ∷ [])) }
{
    Ok(TemplateNode::Element {
        tag: Text::from_str(alloc, tag)?,
        namespace: None,
        attrs,
        children: Shared::one(alloc, TemplateNode::Dynamic { id: 0 })?,
    })
}

/// The tree that shows an error where a boundary names no handler: its text, in red.
pub(crate) fn error_tree<P: Parts>(alloc: Global, text: Text) -> Result<VNode<P>, OutOfMemory>
    ensures { IfOk result (λ tree. tree_of tree ≡ run.error_tree text) }
{
    let root = element_round_slot(alloc, "pre", Shared::empty())?;
    let inner = block_of(alloc, root, &[0, 0], DynamicNode::Text(text))?;
    let red = Shared::one(alloc, fixed(alloc, "style", "color", "red")?)?;
    let root = element_round_slot(alloc, "div", red)?;
    let items = Shared::one(alloc, inner)?;
    block_of(alloc, root, &[0, 0], DynamicNode::Fragment(items))
}

/// The tree that a root wrapper answers: a suspense boundary round an error boundary round the
/// application's root.
pub(crate) fn root_tree<P: Parts>(
    alloc: Global,
    component: P::Component,
    props: P::Props,
) -> Result<VNode<P>, OutOfMemory>
    ensures { IfOk result (λ tree. tree_of tree ≡ run.root_tree component props) }
{
    let own = VComponent::App { component, props };
    let inner = one_slot(alloc, DynamicNode::Component(own))?;
    let errors = VComponent::ErrorBoundary(ErrorBoundaryProps {
        children: Boxed::new(alloc, Ok(inner))?,
        handle_error: ErrorHandler::Default,
    });
    let middle = one_slot(alloc, DynamicNode::Component(errors))?;
    let suspense = VComponent::SuspenseBoundary(SuspenseBoundaryProps {
        children: Boxed::new(alloc, Ok(middle))?,
        fallback: Fallback::Placeholder,
    });
    one_slot(alloc, DynamicNode::Component(suspense))
}

/// The tree of an error boundary without an error: a fragment of its children.
pub(crate) fn children_tree<P: Parts>(
    alloc: Global,
    children: &Element<P>,
) -> Result<VNode<P>, OutOfMemory>
    ensures { IfOk result (λ tree. tree_of tree ≡ run.children_tree (element_of children.now)) }
{
    match children {
        Ok(tree) => {
            let items = Shared::one(alloc, tree.copy(alloc)?)?;
            one_slot(alloc, DynamicNode::Fragment(items))
        }
        Err(_) => VNode::placeholder(alloc),
    }
}

/// A copy of an answer.
pub(crate) fn copy_of<P: Parts>(
    alloc: Global,
    answer: &Element<P>,
) -> Result<Element<P>, OutOfMemory>
    ensures { IfOk result (λ copied. copied ≡ answer.now) }
{
    match answer {
        Ok(tree) => Ok(Ok(tree.copy(alloc)?)),
        Err(error) => Ok(Err(error.copy(alloc)?)),
    }
}

/// The tree of an answer, or one placeholder.
pub fn placeholder_or<P: Parts>(alloc: Global, answer: Element<P>) -> Result<VNode<P>, OutOfMemory>
    ensures { IfOk result (λ tree. tree_of tree ≡ tree_or_placeholder (element_of answer)) }
{
    match answer {
        Ok(tree) => Ok(tree),
        Err(_) => VNode::placeholder(alloc),
    }
}
