//! All of a tree that stands in place of none, or that gives way.

ghost use Rattle.std.specs.Prelude.{◌∷◌, [], drop, OnOk};
ghost use Rattle.tree_mirror.specs.Sealed.{component_of};
ghost use Rattle.run_places.specs.Places.{kind_of};
ghost use Rattle.run_places.specs.Trails.{path_of, place_on};
ghost use Rattle.run_work.specs.Grounds.{component_turns, items_turn, node_turn, node_turns, row_turn, tree_turn, value_turn};
ghost use Rattle.run_work.specs.Met.{Follows};

use crate::takes::Takes;
use rt_values::OutOfMemory;
use run_places::{Kind, Path, Trail, down, steps_on};
use std::alloc::Global;
use tree_nodes::{DynamicNode, Parts, TemplateNode, VComponent, VNode};

/// What becomes of a spot that stands in one of the two trees alone.
#[derive(Clone, Copy, Debug, PartialEq, Eq)]
pub(crate) enum Turn {
    /// It is of the new tree.
    Comes,
    /// It is of the old one.
    Goes,
}

/// All of a tree comes or goes. Of one that comes the place is made once, and those of its nodes
/// are made from it.
#[cycle(turning)]
pub(crate) fn tree_turns<P: Parts, T: Takes<P>>(
    alloc: Global,
    above: &Trail<'_>,
    tree: &VNode<P>,
    turn: Turn,
    levels: u64,
    out: &mut T,
) -> Result<(), OutOfMemory>
    ensures { OnOk result (Follows T.one (tree_turn turn (place_on above.now) tree.now)
        out.old out.new) }
{
    let levels = down(levels)?;
    let nodes = tree.template.roots();
    let up = Path::Top;
    match turn {
        Turn::Comes => {
            let steps = steps_on(alloc, above)?;
            let known = Trail::At(&steps);
            nodes_turn(alloc, &known, &up, nodes, tree, turn, levels, out)
        }
        Turn::Goes => nodes_turn(alloc, above, &up, nodes, tree, turn, levels, out),
    }
}

// What these nodes of a tree's template stand for.
#[cycle(turning)]
fn nodes_turn<P: Parts, T: Takes<P>>(
    alloc: Global,
    above: &Trail<'_>,
    up: &Path<'_>,
    nodes: &[TemplateNode],
    tree: &VNode<P>,
    turn: Turn,
    levels: u64,
    out: &mut T,
) -> Result<(), OutOfMemory>
    ensures { OnOk result (Follows T.one
        (row_turn turn tree.now (place_on above.now) (path_of up.now) 0 nodes.now)
        out.old out.new) }
{
    let levels = down(levels)?;
    for index in 0..nodes.len() {
        let node = &nodes[index];
        node_turns(
            alloc,
            above,
            up,
            index as u64,
            node,
            tree,
            turn,
            levels,
            out,
        )?;
    }
    Ok(())
}

#[cycle(turning)]
fn node_turns<P: Parts, T: Takes<P>>(
    alloc: Global,
    above: &Trail<'_>,
    up: &Path<'_>,
    index: u64,
    node: &TemplateNode,
    tree: &VNode<P>,
    turn: Turn,
    levels: u64,
    out: &mut T,
) -> Result<(), OutOfMemory>
    ensures { OnOk result (Follows T.one
        (node_turn turn tree.now (place_on above.now) (path_of up.now) index node.now)
        out.old out.new) }
{
    let levels = down(levels)?;
    let path = Path::Below(&*up, index);
    let trail = Trail::Inside(&*above, &tree.template, &path);
    match node {
        TemplateNode::Element { children, .. } => {
            turn_node(alloc, &trail, Kind::Element, turn, out)?;
            let nodes = children.as_slice();
            nodes_turn(alloc, above, &path, nodes, tree, turn, levels, out)
        }
        TemplateNode::Text { .. } => turn_node(alloc, &trail, Kind::StaticText, turn, out),
        TemplateNode::Dynamic { id } => match tree.dynamic_nodes.get(*id as usize) {
            Some(value) => value_turns(alloc, &trail, value, turn, levels, out),
            None => Ok(()),
        },
    }
}

/// What stands in a slot comes or goes.
#[cycle(turning)]
pub(crate) fn value_turns<P: Parts, T: Takes<P>>(
    alloc: Global,
    trail: &Trail<'_>,
    value: &DynamicNode<P>,
    turn: Turn,
    levels: u64,
    out: &mut T,
) -> Result<(), OutOfMemory>
    ensures { OnOk result (Follows T.one (value_turn turn value.now (place_on trail.now))
        out.old out.new) }
{
    let levels = down(levels)?;
    match value {
        DynamicNode::Text(_) => turn_node(alloc, trail, Kind::Text, turn, out),
        DynamicNode::Placeholder => turn_node(alloc, trail, Kind::Placeholder, turn, out),
        DynamicNode::Component(component) => turn_component(alloc, trail, component, turn, out),
        DynamicNode::Fragment(trees) => {
            if trees.is_empty() {
                return turn_node(alloc, trail, Kind::EmptyFragment, turn, out);
            }
            trees_turn(alloc, trail, 0, trees.as_slice(), turn, levels, out)
        }
    }
}

/// The items of a fragment from a position on come or go.
#[cycle(turning)]
pub(crate) fn trees_turn<P: Parts, T: Takes<P>>(
    alloc: Global,
    trail: &Trail<'_>,
    first: usize,
    trees: &[VNode<P>],
    turn: Turn,
    levels: u64,
    out: &mut T,
) -> Result<(), OutOfMemory>
    ensures { OnOk result (Follows T.one
        (items_turn turn first (place_on trail.now) (drop first trees.now)) out.old out.new) }
{
    let levels = down(levels)?;
    for position in first..trees.len() {
        let above = Trail::Item(&*trail, position as u64);
        tree_turns(alloc, &above, &trees[position], turn, levels, out)?;
    }
    Ok(())
}

// A node stands in one of the trees alone.
fn turn_node<P: Parts, T: Takes<P>>(
    alloc: Global,
    trail: &Trail<'_>,
    kind: Kind,
    turn: Turn,
    out: &mut T,
) -> Result<(), OutOfMemory>
    ensures { OnOk result (Follows T.one (node_turns turn (place_on trail.now) (kind_of kind) ∷ [])
        out.old out.new) }
{
    match turn {
        Turn::Comes => out.come(alloc, trail, kind),
        Turn::Goes => out.go(alloc, trail, kind),
    }
}

// A component stands in one of the trees alone.
fn turn_component<P: Parts, T: Takes<P>>(
    alloc: Global,
    trail: &Trail<'_>,
    component: &VComponent<P>,
    turn: Turn,
    out: &mut T,
) -> Result<(), OutOfMemory>
    ensures { OnOk result (Follows T.one
        (component_turns turn (place_on trail.now) (component_of component.now) ∷ [])
        out.old out.new) }
{
    match turn {
        Turn::Comes => out.make(alloc, trail, component),
        Turn::Goes => out.leave(alloc, trail, component),
    }
}
