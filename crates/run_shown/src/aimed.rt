//! The climb from a number by its place: only scopes that lead to it are entered, and on each of
//! their sides only nodes above the one place where it stands. Where that isn't sure all is walked
//! through.

ghost use Rattle.std.specs.Prelude.{◌≡◌, ◌++◌, ◌∷◌, [], IfOk};
ghost use Rattle.run_places.specs.Places.{place_of, step_of};
ghost use Rattle.run_places.specs.Trails.{path_of, place_on};
ghost use Rattle.run_shown.specs.Climbs.{child_climb, climb_found, items_climb_in, node_climb_in, row_climb_in, scope_climb, side_climb, tree_climb_in, value_climb_in};
ghost use Rattle.run_shown.specs.Leading.{IsOnlyBelow, IsOnlyFrom, IsOnlyInside, LeadsTo};

use crate::climb::{
    Climb, Climbed, Rooted, below_element, find_items, find_nodes, find_tree, leaf_climb,
    own_climb, slots_on,
};
use crate::look::Look;
use crate::sought::{Ahead, Sought, aim, is_end};
use rt_values::OutOfMemory;
use run_places::{Kind, Path, Step, Trail, down};
use std::alloc::Global;
use tree_nodes::{DynamicNode, Parts, TemplateNode, VNode};

/// Below a scope, at most `depth` scopes deep.
#[cycle(aim)]
#[tactic(auto, using(crate::proofs::Climbing::climbing))]
pub(crate) fn aim_within<P: Parts>(
    alloc: Global,
    look: &Look<'_, P>,
    sought: &Sought<'_>,
    depth: u64,
    scope: u64,
    levels: u64,
) -> Result<Option<Climb<P>>, OutOfMemory>
    requires leads { LeadsTo look.now sought.now }
    ensures { IfOk result (λ found. climb_found found
        ≡ scope_climb look.now sought.now.number depth scope) }
{
    let levels = down(levels)?;
    if depth == 0 {
        return Ok(None);
    }
    match look.shown_side(scope) {
        Some(side) => aim_side(
            alloc,
            &Climbed {
                look: &*look,
                side,
                depth: depth - 1,
            },
            sought,
            levels,
        ),
        None => Ok(None),
    }
}

#[cycle(aim)]
#[tactic(auto, using(crate::proofs::Climbing::climbing))]
fn aim_side<P: Parts>(
    alloc: Global,
    shown: &Climbed<'_, P>,
    sought: &Sought<'_>,
    levels: u64,
) -> Result<Option<Climb<P>>, OutOfMemory>
    requires leads { LeadsTo shown.now.look.now sought.now }
    ensures { IfOk result (λ found. climb_found found
        ≡ side_climb shown.now.look.now sought.now.number shown.now.depth shown.now.side.now) }
{
    let levels = down(levels)?;
    match &shown.side.output {
        Some(tree) => aim_output(alloc, shown, sought, tree, levels),
        None => Ok(None),
    }
}

// In the tree of a side, to the one place where the number stands or a child leads to it.
#[cycle(aim)]
#[tactic(auto, using(crate::proofs::Climbing::climbing))]
fn aim_output<P: Parts>(
    alloc: Global,
    shown: &Climbed<'_, P>,
    sought: &Sought<'_>,
    tree: &VNode<P>,
    levels: u64,
) -> Result<Option<Climb<P>>, OutOfMemory>
    requires leads { LeadsTo shown.now.look.now sought.now }
    ensures { IfOk result (λ found. climb_found found
        ≡ tree_climb_in shown.now sought.now.number tree.now []) }
{
    let levels = down(levels)?;
    match aim(shown.side, sought) {
        Some(place) => {
            let steps = place.steps(alloc)?;
            let ahead = Ahead {
                sought: &*sought,
                path: &[],
                steps: steps.as_slice(),
            };
            aim_tree(alloc, shown, tree, &Trail::Root, &ahead, levels)
        }
        None => find_tree(alloc, shown, sought.number, tree, &Trail::Root, levels),
    }
}

// In a tree, where the way goes on inside its template.
#[cycle(aim)]
#[tactic(auto, using(crate::proofs::Climbing::climbing))]
fn aim_tree<P: Parts>(
    alloc: Global,
    shown: &Climbed<'_, P>,
    tree: &VNode<P>,
    above: &Trail<'_>,
    ahead: &Ahead<'_>,
    levels: u64,
) -> Result<Option<Climb<P>>, OutOfMemory>
    requires leads { LeadsTo shown.now.look.now ahead.now.sought.now }
    requires only { IsOnlyBelow shown.now.side.now ahead.now.sought.now (place_on above.now)
        (place_of ahead.now.steps.now) }
    ensures { IfOk result (λ found. climb_found found
        ≡ tree_climb_in shown.now ahead.now.sought.now.number tree.now (place_on above.now)) }
{
    let levels = down(levels)?;
    let number = ahead.sought.number;
    match ahead.steps.split_first() {
        Some((step, steps)) => {
            let ahead = Ahead {
                sought: ahead.sought,
                path: ahead.path,
                steps,
            };
            aim_step(alloc, shown, tree, above, step, &ahead, levels)
        }
        None => find_tree(alloc, shown, number, tree, above, levels),
    }
}

// By the first step of the way.
#[cycle(aim)]
#[tactic(auto, using(crate::proofs::Climbing::climbing))]
fn aim_step<P: Parts>(
    alloc: Global,
    shown: &Climbed<'_, P>,
    tree: &VNode<P>,
    above: &Trail<'_>,
    step: &Step,
    ahead: &Ahead<'_>,
    levels: u64,
) -> Result<Option<Climb<P>>, OutOfMemory>
    requires leads { LeadsTo shown.now.look.now ahead.now.sought.now }
    requires only { IsOnlyBelow shown.now.side.now ahead.now.sought.now (place_on above.now)
        (step_of step.now ∷ place_of ahead.now.steps.now) }
    ensures { IfOk result (λ found. climb_found found
        ≡ tree_climb_in shown.now ahead.now.sought.now.number tree.now (place_on above.now)) }
{
    let levels = down(levels)?;
    let number = ahead.sought.number;
    match step {
        Step::Inside { template: _, path } => {
            let standing = Rooted {
                shown: &*shown,
                tree,
                above: &*above,
            };
            let ahead = Ahead {
                sought: ahead.sought,
                path: path.as_slice(),
                steps: ahead.steps,
            };
            aim_nodes(
                alloc,
                &standing,
                &Path::Top,
                tree.template.roots(),
                &ahead,
                levels,
            )
        }
        Step::Item { position: _ } => find_tree(alloc, shown, number, tree, above, levels),
    }
}

// Among the nodes of a template, where the path goes on to one of them.
#[cycle(aim)]
#[tactic(auto, using(crate::proofs::Climbing::climbing))]
fn aim_nodes<P: Parts>(
    alloc: Global,
    standing: &Rooted<'_, P>,
    up: &Path<'_>,
    nodes: &[TemplateNode],
    ahead: &Ahead<'_>,
    levels: u64,
) -> Result<Option<Climb<P>>, OutOfMemory>
    requires leads { LeadsTo standing.now.shown.now.look.now ahead.now.sought.now }
    requires only { IsOnlyInside standing.now ahead.now.sought.now
        (path_of up.now ++ ahead.now.path.now) (place_of ahead.now.steps.now) }
    ensures { IfOk result (λ found. climb_found found
        ≡ row_climb_in standing.now ahead.now.sought.now.number (path_of up.now) 0 nodes.now) }
{
    let levels = down(levels)?;
    let number = ahead.sought.number;
    match ahead.path.split_first() {
        Some((index, path)) => match nodes.get(*index as usize) {
            Some(node) => {
                let ahead = Ahead {
                    sought: ahead.sought,
                    path,
                    steps: ahead.steps,
                };
                aim_node(alloc, standing, up, *index as u64, node, &ahead, levels)
            }
            None => find_nodes(alloc, standing, number, up, nodes, levels),
        },
        None => find_nodes(alloc, standing, number, up, nodes, levels),
    }
}

#[cycle(aim)]
#[tactic(auto, using(crate::proofs::Climbing::climbing))]
fn aim_node<P: Parts>(
    alloc: Global,
    standing: &Rooted<'_, P>,
    up: &Path<'_>,
    index: u64,
    node: &TemplateNode,
    ahead: &Ahead<'_>,
    levels: u64,
) -> Result<Option<Climb<P>>, OutOfMemory>
    requires leads { LeadsTo standing.now.shown.now.look.now ahead.now.sought.now }
    requires only { IsOnlyInside standing.now ahead.now.sought.now
        ((path_of up.now ++ index ∷ []) ++ ahead.now.path.now) (place_of ahead.now.steps.now) }
    ensures { IfOk result (λ found. climb_found found
        ≡ node_climb_in standing.now ahead.now.sought.now.number (path_of up.now) index node.now) }
{
    let levels = down(levels)?;
    let path = Path::Below(&*up, index);
    let place = Trail::Inside(&*standing.above, &standing.tree.template, &path);
    let number = ahead.sought.number;
    match node {
        TemplateNode::Element {
            attrs,
            children,
            ..
        } => {
            let entries = attrs.as_slice();
            let slots = slots_on(alloc, &standing.tree.dynamic_attrs, entries)?;
            if is_end(ahead.path) {
                return own_climb(alloc, standing.shown, &place, slots, number);
            }
            let nodes = children.as_slice();
            let found = aim_nodes(alloc, standing, &path, nodes, ahead, levels)?;
            below_element(slots, found)
        }
        TemplateNode::Text { .. } => {
            leaf_climb(alloc, standing.shown, &place, Kind::StaticText, number)
        }
        TemplateNode::Dynamic { id } => match standing.tree.dynamic_nodes.get(*id as usize) {
            Some(value) => aim_slot(alloc, standing.shown, value, &place, ahead, levels),
            None => Ok(None),
        },
    }
}

#[cycle(aim)]
#[tactic(auto, using(crate::proofs::Climbing::climbing))]
fn aim_slot<P: Parts>(
    alloc: Global,
    shown: &Climbed<'_, P>,
    value: &DynamicNode<P>,
    place: &Trail<'_>,
    ahead: &Ahead<'_>,
    levels: u64,
) -> Result<Option<Climb<P>>, OutOfMemory>
    requires leads { LeadsTo shown.now.look.now ahead.now.sought.now }
    requires only { ahead.now.path.now ≡ [] → IsOnlyFrom shown.now.side.now ahead.now.sought.now
        (place_on place.now) (place_of ahead.now.steps.now) }
    ensures { IfOk result (λ found. climb_found found
        ≡ value_climb_in shown.now ahead.now.sought.now.number value.now (place_on place.now)) }
{
    let levels = down(levels)?;
    let number = ahead.sought.number;
    match value {
        DynamicNode::Text(_) => leaf_climb(alloc, shown, place, Kind::Text, number),
        DynamicNode::Placeholder => leaf_climb(alloc, shown, place, Kind::Placeholder, number),
        DynamicNode::Component(_) => aim_child(alloc, shown, ahead.sought, place, levels),
        DynamicNode::Fragment(trees) => {
            if trees.is_empty() {
                return leaf_climb(alloc, shown, place, Kind::EmptyFragment, number);
            }
            aim_items(alloc, shown, place, trees.as_slice(), ahead, levels)
        }
    }
}

#[cycle(aim)]
#[tactic(auto, using(crate::proofs::Climbing::climbing))]
fn aim_child<P: Parts>(
    alloc: Global,
    shown: &Climbed<'_, P>,
    sought: &Sought<'_>,
    place: &Trail<'_>,
    levels: u64,
) -> Result<Option<Climb<P>>, OutOfMemory>
    requires leads { LeadsTo shown.now.look.now sought.now }
    ensures { IfOk result (λ found. climb_found found
        ≡ child_climb shown.now.look.now sought.now.number shown.now.depth shown.now.side.now
        (place_on place.now)) }
{
    let levels = down(levels)?;
    match shown.side.child_on(place) {
        Some(child) => aim_within(alloc, shown.look, sought, shown.depth, child, levels),
        None => Ok(None),
    }
}

// Among the items of a fragment, where the way goes on in one of them.
#[cycle(aim)]
#[tactic(auto, using(crate::proofs::Climbing::climbing))]
fn aim_items<P: Parts>(
    alloc: Global,
    shown: &Climbed<'_, P>,
    place: &Trail<'_>,
    trees: &[VNode<P>],
    ahead: &Ahead<'_>,
    levels: u64,
) -> Result<Option<Climb<P>>, OutOfMemory>
    requires leads { LeadsTo shown.now.look.now ahead.now.sought.now }
    requires only { ahead.now.path.now ≡ [] → IsOnlyFrom shown.now.side.now ahead.now.sought.now
        (place_on place.now) (place_of ahead.now.steps.now) }
    ensures { IfOk result (λ found. climb_found found
        ≡ items_climb_in shown.now ahead.now.sought.now.number (place_on place.now) trees.now) }
{
    let levels = down(levels)?;
    let number = ahead.sought.number;
    if !is_end(ahead.path) {
        return find_items(alloc, shown, number, place, trees, levels);
    }
    match ahead.steps.split_first() {
        Some((step, steps)) => {
            let ahead = Ahead {
                sought: ahead.sought,
                path: ahead.path,
                steps,
            };
            aim_item(alloc, shown, place, trees, step, &ahead, levels)
        }
        None => find_items(alloc, shown, number, place, trees, levels),
    }
}

// By the first step of the way.
#[cycle(aim)]
#[tactic(auto, using(crate::proofs::Climbing::climbing))]
fn aim_item<P: Parts>(
    alloc: Global,
    shown: &Climbed<'_, P>,
    place: &Trail<'_>,
    trees: &[VNode<P>],
    step: &Step,
    ahead: &Ahead<'_>,
    levels: u64,
) -> Result<Option<Climb<P>>, OutOfMemory>
    requires leads { LeadsTo shown.now.look.now ahead.now.sought.now }
    requires only { IsOnlyFrom shown.now.side.now ahead.now.sought.now (place_on place.now)
        (step_of step.now ∷ place_of ahead.now.steps.now) }
    ensures { IfOk result (λ found. climb_found found
        ≡ items_climb_in shown.now ahead.now.sought.now.number (place_on place.now) trees.now) }
{
    let levels = down(levels)?;
    let number = ahead.sought.number;
    match step {
        Step::Item { position } => match trees.get(*position as usize) {
            Some(tree) => {
                let above = Trail::Item(&*place, *position);
                aim_tree(alloc, shown, tree, &above, ahead, levels)
            }
            None => find_items(alloc, shown, number, place, trees, levels),
        },
        Step::Inside {
            template: _,
            path: _,
        } => { find_items(alloc, shown, number, place, trees, levels) }
    }
}
