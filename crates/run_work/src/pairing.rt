//! An old tree and a new one, side by side.

ghost use Rattle.std.specs.Prelude.{◌≡◌, [], IfOk, OnOk, length, map};
ghost use Rattle.std.specs.Option.{option_copied};
ghost use Rattle.tree_nodes.specs.declared.vnode.DynamicNode.TheVariants as values;
ghost use Rattle.tree_mirror.specs.Sealed.{tree_of};
ghost use Rattle.tree_marks.specs.Marks.{come, tree_marks};
ghost use Rattle.rt_model.specs.Tree.{spots};
ghost use Rattle.run_places.specs.Places.{node_of};
ghost use Rattle.run_places.specs.Trails.{path_of, place_on};
ghost use Rattle.run_work.specs.Goes.{NodesGo};
ghost use Rattle.run_work.specs.Met.{Follows, Meets};
ghost use Rattle.run_work.specs.Pairs.{items_pair, node_pair, row_pair, slot_change, slot_pair, tree_change, tree_pair, values_pair};
ghost use Rattle.run_work.specs.Patches.{Patches};

use crate::component::is_same_component;
use crate::patched::{Ground, Patched};
use crate::takes::Takes;
use crate::taking::Taking;
use crate::turning::{Turn, tree_turns, trees_turn, value_turns};
use rt_values::{OutOfMemory, Part};
use run_places::{Kind, LEVELS, Path, Side, SideName, Trail, down};
use std::alloc::Global;
use tree_nodes::{DynamicNode, Parts, TemplateNode, VNode};

/// What a new tree on a side of a scope leads to, and what of the side is kept for it.
pub fn walk_both<P: Parts>(
    alloc: Global,
    scope: u64,
    name: SideName,
    side: &Side<P>,
    tree: &VNode<P>,
) -> Result<Patched<P>, OutOfMemory>
    ensures patches { IfOk result (λ out. Patches scope name tree.now side.now out) }
    ensures goes { IfOk result (λ out.
        NodesGo (map node_of side.now.nodes) (map node_of out.nodes) out.nodes_to) }
    ensures seats { IfOk result (λ out. length out.seats_to ≡ length side.now.seats) }
{
    let ground = Ground {
        scope,
        name,
        side: &*side,
    };
    let out = Patched::new(alloc, side)?;
    let mut taking = Taking { ground, out };
    match &side.output {
        Some(old) => {
            walk(alloc, old, tree, &mut taking)?;
            let Taking {
                ground: _ground,
                out,
            } = taking;
            Ok(out)
        }
        None => {
            walk_new(alloc, tree, &mut taking)?;
            let Taking {
                ground: _ground,
                out,
            } = taking;
            Ok(out)
        }
    }
}

/// Walks over an old tree and a new one at the root, for whoever takes what is met.
pub fn walk<P: Parts, T: Takes<P>>(
    alloc: Global,
    old: &VNode<P>,
    new: &VNode<P>,
    out: &mut T,
) -> Result<(), OutOfMemory>
    ensures { OnOk result (Meets T.one out.old out.new
        (λ app. tree_marks app [] (tree_of new.now) (tree_of old.now))) }
{
    pair_tree(alloc, &Trail::Root, old, new, LEVELS, out)
}

/// Walks over a first tree at the root: all of it comes.
pub fn walk_new<P: Parts, T: Takes<P>>(
    alloc: Global,
    new: &VNode<P>,
    out: &mut T,
) -> Result<(), OutOfMemory>
    ensures { OnOk result (Follows T.one (map come (spots [] (tree_of new.now)))
        out.old out.new) }
{
    tree_turns(alloc, &Trail::Root, new, Turn::Comes, LEVELS, out)
}

// Two trees at one place. Where their templates differ all of the old one goes and all of the new
// one comes.
#[cycle(pairing)]
fn pair_tree<P: Parts, T: Takes<P>>(
    alloc: Global,
    above: &Trail<'_>,
    old: &VNode<P>,
    new: &VNode<P>,
    levels: u64,
    out: &mut T,
) -> Result<(), OutOfMemory>
    ensures { OnOk result (Meets T.one out.old out.new
        (λ app. tree_pair app old.now new.now (place_on above.now))) }
{
    let levels = down(levels)?;
    if !new.template.same(&old.template) {
        return change_tree(alloc, above, old, new, out);
    }
    out.give(alloc, above, new, old)?;
    let nodes = new.template.roots();
    pair_nodes(alloc, above, &Path::Top, nodes, old, new, levels, out)
}

// What stands at these nodes of the template that two trees have.
#[cycle(pairing)]
fn pair_nodes<P: Parts, T: Takes<P>>(
    alloc: Global,
    above: &Trail<'_>,
    up: &Path<'_>,
    nodes: &[TemplateNode],
    old: &VNode<P>,
    new: &VNode<P>,
    levels: u64,
    out: &mut T,
) -> Result<(), OutOfMemory>
    ensures { OnOk result (Meets T.one out.old out.new
        (λ app. row_pair app old.now new.now (place_on above.now) (path_of up.now) 0 nodes.now)) }
{
    let levels = down(levels)?;
    for index in 0..nodes.len() {
        let node = &nodes[index];
        pair_node(alloc, above, up, index as u64, node, old, new, levels, out)?;
    }
    Ok(())
}

#[cycle(pairing)]
fn pair_node<P: Parts, T: Takes<P>>(
    alloc: Global,
    above: &Trail<'_>,
    up: &Path<'_>,
    index: u64,
    node: &TemplateNode,
    old: &VNode<P>,
    new: &VNode<P>,
    levels: u64,
    out: &mut T,
) -> Result<(), OutOfMemory>
    ensures { OnOk result (Meets T.one out.old out.new
        (λ app. node_pair app old.now new.now (place_on above.now) (path_of up.now) index node.now)) }
{
    let levels = down(levels)?;
    let path = Path::Below(&*up, index);
    let trail = Trail::Inside(&*above, &new.template, &path);
    match node {
        TemplateNode::Element { children, .. } => {
            out.stay(alloc, &trail, Kind::Element)?;
            let nodes = children.as_slice();
            pair_nodes(alloc, above, &path, nodes, old, new, levels, out)
        }
        TemplateNode::Text { .. } => out.stay(alloc, &trail, Kind::StaticText),
        TemplateNode::Dynamic { id } => {
            let was = old.dynamic_nodes.get(*id as usize);
            let next = new.dynamic_nodes.get(*id as usize);
            pair_slot(alloc, &trail, was, next, levels, out)
        }
    }
}

// What stands in a slot of two trees, if anything does.
#[cycle(pairing)]
fn pair_slot<P: Parts, T: Takes<P>>(
    alloc: Global,
    trail: &Trail<'_>,
    old: Option<&DynamicNode<P>>,
    new: Option<&DynamicNode<P>>,
    levels: u64,
    out: &mut T,
) -> Result<(), OutOfMemory>
    ensures { OnOk result (Meets T.one out.old out.new
        (λ app. slot_pair app (option_copied old.entry) (option_copied new.entry)
        (place_on trail.now))) }
{
    let levels = down(levels)?;
    match old {
        Some(old) => match new {
            Some(new) => pair_values(alloc, trail, old, new, levels, out),
            None => value_turns(alloc, trail, old, Turn::Goes, LEVELS, out),
        },
        None => match new {
            Some(new) => {
                value_turns(alloc, trail, new, Turn::Comes, LEVELS, out)?;
                out.alone(alloc, trail, new)
            }
            None => Ok(()),
        },
    }
}

// What stands in a slot of both trees.
#[cycle(pairing)]
fn pair_values<P: Parts, T: Takes<P>>(
    alloc: Global,
    trail: &Trail<'_>,
    old: &DynamicNode<P>,
    new: &DynamicNode<P>,
    levels: u64,
    out: &mut T,
) -> Result<(), OutOfMemory>
    ensures { OnOk result (Meets T.one out.old out.new
        (λ app. values_pair app old.now new.now (place_on trail.now))) }
{
    let levels = down(levels)?;
    match old {
        DynamicNode::Text(was) => match new {
            DynamicNode::Text(next) => {
                out.stay(alloc, trail, Kind::Text)?;
                out.word(alloc, trail, next, was)
            }
            DynamicNode::Placeholder => change_slot(alloc, trail, old, new, out),
            DynamicNode::Component(_) => change_slot(alloc, trail, old, new, out),
            DynamicNode::Fragment(_) => change_slot(alloc, trail, old, new, out),
        },
        DynamicNode::Placeholder => match new {
            DynamicNode::Text(_) => change_slot(alloc, trail, old, new, out),
            DynamicNode::Placeholder => out.stay(alloc, trail, Kind::Placeholder),
            DynamicNode::Component(_) => change_slot(alloc, trail, old, new, out),
            DynamicNode::Fragment(_) => change_slot(alloc, trail, old, new, out),
        },
        DynamicNode::Component(was) => match new {
            DynamicNode::Text(_) => change_slot(alloc, trail, old, new, out),
            DynamicNode::Placeholder => change_slot(alloc, trail, old, new, out),
            DynamicNode::Component(next) => {
                if is_same_component(was, next) {
                    return out.feed(alloc, trail, was, next);
                }
                change_slot(alloc, trail, old, new, out)
            }
            DynamicNode::Fragment(_) => change_slot(alloc, trail, old, new, out),
        },
        DynamicNode::Fragment(were) => match new {
            DynamicNode::Text(_) => change_slot(alloc, trail, old, new, out),
            DynamicNode::Placeholder => change_slot(alloc, trail, old, new, out),
            DynamicNode::Component(_) => change_slot(alloc, trail, old, new, out),
            DynamicNode::Fragment(are) => {
                let olds = were.as_slice();
                pair_fragments(alloc, trail, old, new, olds, are.as_slice(), levels, out)
            }
        },
    }
}

// Two fragments with their items. One without items has a node of its own.
#[cycle(pairing)]
fn pair_fragments<P: Parts, T: Takes<P>>(
    alloc: Global,
    trail: &Trail<'_>,
    old: &DynamicNode<P>,
    new: &DynamicNode<P>,
    were: &[VNode<P>],
    are: &[VNode<P>],
    levels: u64,
    out: &mut T,
) -> Result<(), OutOfMemory>
    ensures { old.now ≡ values.Fragment were.now → new.now ≡ values.Fragment are.now
        → OnOk result (Meets T.one out.old out.new
        (λ app. values_pair app old.now new.now (place_on trail.now))) }
{
    let levels = down(levels)?;
    if were.is_empty() {
        if are.is_empty() {
            return out.stay(alloc, trail, Kind::EmptyFragment);
        }
        return change_slot(alloc, trail, old, new, out);
    }
    if are.is_empty() {
        return change_slot(alloc, trail, old, new, out);
    }
    pair_items(alloc, trail, were, are, levels, out)
}

// The items of two fragments: pairs in order, then those that are over go, or those that are new
// come.
#[cycle(pairing)]
fn pair_items<P: Parts, T: Takes<P>>(
    alloc: Global,
    trail: &Trail<'_>,
    were: &[VNode<P>],
    are: &[VNode<P>],
    levels: u64,
    out: &mut T,
) -> Result<(), OutOfMemory>
    ensures { OnOk result (Meets T.one out.old out.new
        (λ app. items_pair app 0 (place_on trail.now) [] were.now are.now)) }
{
    let levels = down(levels)?;
    for position in 0..were.len() {
        if position >= are.len() {
            trees_turn(alloc, trail, position, were, Turn::Goes, LEVELS, out)?;
            return out.go_out(alloc, trail, were, position);
        }
        let above = Trail::Item(&*trail, position as u64);
        pair_tree(alloc, &above, &were[position], &are[position], levels, out)?;
    }
    let over = were.len();
    if over >= are.len() {
        return Ok(());
    }
    trees_turn(alloc, trail, over, are, Turn::Comes, LEVELS, out)?;
    out.come_in(alloc, trail, are, over)
}

// What stood in a slot goes, and what stands there now comes.
fn change_slot<P: Parts, T: Takes<P>>(
    alloc: Global,
    trail: &Trail<'_>,
    old: &DynamicNode<P>,
    new: &DynamicNode<P>,
    out: &mut T,
) -> Result<(), OutOfMemory>
    ensures { OnOk result (Follows T.one (slot_change old.now new.now (place_on trail.now))
        out.old out.new) }
{
    out.slot_go(alloc, trail, old)?;
    value_turns(alloc, trail, old, Turn::Goes, LEVELS, out)?;
    value_turns(alloc, trail, new, Turn::Comes, LEVELS, out)?;
    out.slot_gives_way(alloc, trail, new, old)
}

// All of a tree goes, and another one comes in its place.
fn change_tree<P: Parts, T: Takes<P>>(
    alloc: Global,
    above: &Trail<'_>,
    old: &VNode<P>,
    new: &VNode<P>,
    out: &mut T,
) -> Result<(), OutOfMemory>
    ensures { OnOk result (Follows T.one (tree_change old.now new.now (place_on above.now))
        out.old out.new) }
{
    out.tree_go(alloc, above, old)?;
    tree_turns(alloc, above, old, Turn::Goes, LEVELS, out)?;
    tree_turns(alloc, above, new, Turn::Comes, LEVELS, out)?;
    out.tree_gives_way(alloc, above, new, old)
}
