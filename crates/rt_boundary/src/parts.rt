//! What the steps of a suspense boundary's run take of its component, and the work that they lead to.
ghost use Rattle.std.specs.Prelude.{◌≡◌, IfOk};
ghost use Rattle.rt_model.specs.Boundary as model;
ghost use Rattle.rt_model.specs.Boundary.{tree_or_placeholder};
ghost use Rattle.rt_model.specs.Tree.{SuspenseBoundary};
ghost use Rattle.tree_mirror.specs.Mirror.{fallback_of};
ghost use Rattle.tree_mirror.specs.Sealed.{component_of, element_of, tree_of};
ghost use Rattle.run_places.specs.Places.{side_name_of};
ghost use Rattle.run_work.specs.Items.{work_of};
ghost use Rattle.rt_boundary.specs.Rows.{made_items};

use rt_scopes::row_items;
use rt_values::{List, OutOfMemory};
use run_places::SideName;
use run_work::{Item, RowStep};
use std::alloc::Global;
use tree_nodes::{Element, Fallback, Parts, VComponent, VNode};

/// A copy of the tree of a suspense boundary's children, one placeholder where they are none.
pub(crate) fn children_of<P: Parts>(
    alloc: Global,
    component: &VComponent<P>,
) -> Result<VNode<P>, OutOfMemory>
    ensures { IfOk result (λ tree.
        tree_of tree ≡ model.children_of (component_of component.now)) }
{
    match component {
        VComponent::SuspenseBoundary(props) => copy_tree(alloc, props.children.get()),
        VComponent::App { .. } => VNode::placeholder(alloc),
        VComponent::Fragment(_) => VNode::placeholder(alloc),
        VComponent::ErrorBoundary(_) => VNode::placeholder(alloc),
        VComponent::Root(_) => VNode::placeholder(alloc),
    }
}

/// A copy of the tree of an answer, or one placeholder.
fn copy_tree<P: Parts>(alloc: Global, answer: &Element<P>) -> Result<VNode<P>, OutOfMemory>
    ensures { IfOk result (λ tree. tree_of tree ≡ tree_or_placeholder (element_of answer.now)) }
{
    match answer {
        Ok(tree) => tree.copy(alloc),
        Err(_) => VNode::placeholder(alloc),
    }
}

/// Whether an answer raises the render count: a tree of a fallback that has a component.
pub(crate) fn counts_render<P: Parts>(component: &VComponent<P>, answer: &Element<P>) -> bool
    ensures { result ≡ model.counts_render (component_of component.now) (element_of answer.now) }
{
    match component {
        VComponent::SuspenseBoundary(props) => counts_answer(&props.fallback, answer),
        VComponent::App { .. } => false,
        VComponent::Fragment(_) => false,
        VComponent::ErrorBoundary(_) => false,
        VComponent::Root(_) => false,
    }
}

/// Whether an answer of a fallback raises the render count.
fn counts_answer<P: Parts>(fallback: &Fallback<P>, answer: &Element<P>) -> bool
    ensures { (children : _) → result ≡ model.counts_render
        (SuspenseBoundary children (fallback_of fallback.now)) (element_of answer.now) }
{
    match fallback {
        Fallback::Component(_, _) => answer.is_ok(),
        Fallback::Placeholder => false,
    }
}

/// Each child of a side is dropped.
pub(crate) fn drop_items<P: Parts>(
    alloc: Global,
    boundary: u64,
    side: SideName,
    children: &[u64],
) -> Result<List<Item<P>>, OutOfMemory>
    ensures { IfOk result (λ items.
        work_of items ≡ model.drop_items boundary (side_name_of side) children.now) }
{
    let mut items = List::new(alloc);
    for child in children {
        items.push(Item::Drop {
            child: *child,
            scope: boundary,
            side,
        })?;
    }
    Ok(items)
}

/// The steps that follow the children of a boundary that is made: its fallback where it is held,
/// else its children.
pub(crate) fn made_items<P: Parts>(
    alloc: Global,
    boundary: u64,
    held: bool,
) -> Result<List<Item<P>>, OutOfMemory>
    ensures { IfOk result (λ items. work_of items ≡ made_items boundary held) }
{
    if held {
        row_items(
            alloc,
            boundary,
            &[RowStep::RunFallback, RowStep::ShowFallback],
        )
    } else {
        row_items(alloc, boundary, &[RowStep::ShowChildren, RowStep::Resolve])
    }
}
