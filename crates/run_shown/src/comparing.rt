//! What a unit writes, side by side, tree by tree and slot by slot.

ghost use Rattle.std.specs.Prelude.{◌≡◌, Some, IfOk};
ghost use Rattle.tree_nodes.specs.declared.vnode.DynamicNode.TheVariants as values;
ghost use Rattle.run_places.specs.Trails.{path_of, place_on};
ghost use Rattle.run_shown.specs.Look.{found_of, look_at, look_side};
ghost use Rattle.run_shown.specs.Units.{Writes, child_writes, items_writes, name_writes, node_writes, output_writes, row_writes, scope_writes, slot_writes, tree_writes, unit_writes};

use crate::calm::{Sides, stays_quiet};
use crate::edited::{Edited, halts, nothing, then_on, then_stop, writes};
use crate::found::Found;
use crate::inserting::items_inserted;
use crate::look::is_same_side;
use crate::sides::{
    Unit, is_shown_in_both, removals, scope_replaced, shown_in, slot_replaced, tree_replaced,
};
use crate::slots::{no_items_written, placeholder_written, text_written};
use crate::still::still_written;
use crate::tops::items_tops;
use crate::touching::is_touched;
use crate::way::{is_on_way, is_place, stop_on};
use rt_values::{List, OutOfMemory, Part, Shared};
use run_attributes::attributes_written;
use run_places::{Path, Side, SideName, Trail, down};
use run_work::is_same_component;
use std::alloc::Global;
use tree_nodes::{DynamicNode, Parts, TemplateNode, VComponent, VNode};

/// What a scope writes, at most `depth` scopes deep. A scope that isn't shown both before and after
/// writes nothing, nor does one that the unit left as it was with all below it. After what a scope
/// on the way to the refusal wrote nothing more is written.
#[cycle(written)]
#[tactic(auto, using(crate::proofs::Writings::writings))]
pub(crate) fn written_within<P: Parts>(
    alloc: Global,
    unit: &Unit<'_, P>,
    depth: u64,
    scope: u64,
    levels: u64,
) -> Result<Edited, OutOfMemory>
    ensures { IfOk result (λ written. Writes unit.now written
        (λ app. unit_writes app unit.now depth scope)) }
{
    let levels = down(levels)?;
    if depth == 0 {
        return Ok(nothing(alloc));
    }
    if !is_touched(unit.touched, scope) {
        return Ok(nothing(alloc));
    }
    let stops = is_on_way(unit.way, scope);
    if is_shown_in_both(unit, scope) {
        let written = scope_written(alloc, unit, depth - 1, scope, levels)?;
        return then_stop(alloc, written, stops);
    }
    then_stop(alloc, nothing(alloc), stops)
}

// The side that shows in both states, or one side in place of the other.
#[cycle(written)]
#[tactic(auto, using(crate::proofs::Writings::writings))]
fn scope_written<P: Parts>(
    alloc: Global,
    unit: &Unit<'_, P>,
    depth: u64,
    scope: u64,
    levels: u64,
) -> Result<Edited, OutOfMemory>
    ensures { IfOk result (λ written. Writes unit.now written
        (λ app. scope_writes app unit.now depth scope)) }
{
    let levels = down(levels)?;
    let Some(former) = unit.before.find(scope) else {
        return Ok(nothing(alloc));
    };
    let Some(present) = unit.after.find(scope) else {
        return Ok(nothing(alloc));
    };
    found_written(alloc, unit, depth, scope, &former, &present, levels)
}

/// What a scope writes that was found in both states.
#[cycle(written)]
#[tactic(auto, using(crate::proofs::Writings::writings))]
pub(crate) fn found_written<P: Parts>(
    alloc: Global,
    unit: &Unit<'_, P>,
    depth: u64,
    scope: u64,
    former: &Found<'_, P>,
    present: &Found<'_, P>,
    levels: u64,
) -> Result<Edited, OutOfMemory>
    requires before { look_at unit.now.before.now scope ≡ Some (found_of former.now) }
    requires after { look_at unit.now.after.now scope ≡ Some (found_of present.now) }
    ensures { IfOk result (λ written. Writes unit.now written
        (λ app. scope_writes app unit.now depth scope)) }
{
    let levels = down(levels)?;
    match former.shows() {
        Some(old) => match present.shows() {
            Some(new) => {
                if is_same_side(old, new) {
                    let was = former.side(old);
                    let side = present.side(old);
                    side_written(alloc, unit, depth, scope, old, was, side, levels)
                } else {
                    scope_replaced(alloc, unit, scope)
                }
            }
            None => Ok(nothing(alloc)),
        },
        None => Ok(nothing(alloc)),
    }
}

// What the side writes that shows in both states.
#[cycle(written)]
#[tactic(auto, using(crate::proofs::Writings::writings))]
fn side_written<P: Parts>(
    alloc: Global,
    unit: &Unit<'_, P>,
    depth: u64,
    scope: u64,
    name: SideName,
    was: &Side<P>,
    side: &Side<P>,
    levels: u64,
) -> Result<Edited, OutOfMemory>
    requires before { look_side unit.now.before.now scope name ≡ Some was.now }
    requires after { look_side unit.now.after.now scope name ≡ Some side.now }
    ensures { IfOk result (λ written. Writes unit.now written
        (λ app. name_writes app unit.now depth scope name)) }
{
    let levels = down(levels)?;
    let old = shown_in(unit.before, was);
    let new = shown_in(unit.after, side);
    let stop = stop_on(unit.way, scope, name);
    let quiet = stays_quiet(unit, &old, stop);
    let sides = Sides {
        unit: &*unit,
        old: &old,
        new: &new,
        stop,
        depth,
        quiet,
    };
    outputs_written(alloc, &sides, levels)
}

// What an output writes where there was one before.
#[cycle(written)]
#[tactic(auto, using(crate::proofs::Writings::writings))]
fn outputs_written<P: Parts>(
    alloc: Global,
    sides: &Sides<'_, P>,
    levels: u64,
) -> Result<Edited, OutOfMemory>
    ensures { IfOk result (λ written. Writes sides.now.unit.now written
        (λ app. output_writes app sides.now)) }
{
    let levels = down(levels)?;
    let Some(new) = &sides.new.side.output else {
        return Ok(nothing(alloc));
    };
    let Some(old) = &sides.old.side.output else {
        return Ok(nothing(alloc));
    };
    let still = still_written(alloc, sides, new, old)?;
    match still {
        Some(edits) => Ok(writes(edits)),
        None => tree_written(alloc, sides, &Trail::Root, new, old, levels),
    }
}

// What a matched tree writes: its attributes, then its slots. An unmatched one is replaced.
#[cycle(written)]
#[tactic(auto, using(crate::proofs::Writings::writings))]
fn tree_written<P: Parts>(
    alloc: Global,
    sides: &Sides<'_, P>,
    above: &Trail<'_>,
    new: &VNode<P>,
    old: &VNode<P>,
    levels: u64,
) -> Result<Edited, OutOfMemory>
    ensures { IfOk result (λ written. Writes sides.now.unit.now written
        (λ app. tree_writes app sides.now (place_on above.now) new.now old.now)) }
{
    let levels = down(levels)?;
    if !new.template.same(&old.template) {
        return tree_replaced(alloc, sides, above, new, old);
    }
    let nodes = new.template.roots();
    let slots = nodes_written(alloc, sides, above, &Path::Top, nodes, new, old, levels)?;
    then_on(
        writes(attributes_written(alloc, sides.old.side, above, new, old)?),
        slots,
    )
}

// What these nodes of a matched tree's template write, one after another.
#[cycle(written)]
#[tactic(auto, using(crate::proofs::Writings::writings))]
fn nodes_written<P: Parts>(
    alloc: Global,
    sides: &Sides<'_, P>,
    above: &Trail<'_>,
    up: &Path<'_>,
    nodes: &[TemplateNode],
    new: &VNode<P>,
    old: &VNode<P>,
    levels: u64,
) -> Result<Edited, OutOfMemory>
    ensures { IfOk result (λ written. Writes sides.now.unit.now written
        (λ app. row_writes app sides.now (place_on above.now) new.now old.now
        (path_of up.now) 0 nodes.now)) }
{
    let levels = down(levels)?;
    let mut written = nothing(alloc);
    for index in 0..nodes.len() {
        if written.stopped {
            return Ok(written);
        }
        let node = &nodes[index];
        let position = index as u64;
        let more = node_written(alloc, sides, above, up, position, node, new, old, levels)?;
        written = then_on(written, more)?;
    }
    Ok(written)
}

// What a node of a matched tree's template writes.
#[cycle(written)]
#[tactic(auto, using(crate::proofs::Writings::writings))]
fn node_written<P: Parts>(
    alloc: Global,
    sides: &Sides<'_, P>,
    above: &Trail<'_>,
    up: &Path<'_>,
    index: u64,
    node: &TemplateNode,
    new: &VNode<P>,
    old: &VNode<P>,
    levels: u64,
) -> Result<Edited, OutOfMemory>
    ensures { IfOk result (λ written. Writes sides.now.unit.now written
        (λ app. node_writes app sides.now (place_on above.now) new.now old.now
        (path_of up.now) index node.now)) }
{
    let levels = down(levels)?;
    let path = Path::Below(&*up, index);
    match node {
        TemplateNode::Element { children, .. } => {
            let nodes = children.as_slice();
            nodes_written(alloc, sides, above, &path, nodes, new, old, levels)
        }
        TemplateNode::Text { .. } => Ok(nothing(alloc)),
        TemplateNode::Dynamic { id } => {
            let place = Trail::Inside(&*above, &new.template, &path);
            match new.dynamic_nodes.get(*id as usize) {
                Some(value) => match old.dynamic_nodes.get(*id as usize) {
                    Some(was) => slot_written(alloc, sides, &place, value, was, levels),
                    None => {
                        let gone = DynamicNode::Placeholder;
                        slot_written(alloc, sides, &place, value, &gone, levels)
                    }
                },
                None => Ok(nothing(alloc)),
            }
        }
    }
}

// What a slot writes, by what stood in it and what stands there now.
#[cycle(written)]
#[tactic(auto, using(crate::proofs::Writings::writings))]
fn slot_written<P: Parts>(
    alloc: Global,
    sides: &Sides<'_, P>,
    place: &Trail<'_>,
    new: &DynamicNode<P>,
    old: &DynamicNode<P>,
    levels: u64,
) -> Result<Edited, OutOfMemory>
    ensures { IfOk result (λ written. Writes sides.now.unit.now written
        (λ app. slot_writes app sides.now (place_on place.now) new.now old.now)) }
{
    let levels = down(levels)?;
    match new {
        DynamicNode::Text(text) => text_written(alloc, sides, place, text, new, old),
        DynamicNode::Placeholder => placeholder_written(alloc, sides, place, new, old),
        DynamicNode::Component(component) => {
            component_written(alloc, sides, place, component, new, old, levels)
        }
        DynamicNode::Fragment(trees) => {
            fragment_written(alloc, sides, place, trees, new, old, levels)
        }
    }
}

// What a component writes in a slot.
#[cycle(written)]
#[tactic(auto, using(crate::proofs::Writings::writings))]
fn component_written<P: Parts>(
    alloc: Global,
    sides: &Sides<'_, P>,
    place: &Trail<'_>,
    component: &VComponent<P>,
    new: &DynamicNode<P>,
    old: &DynamicNode<P>,
    levels: u64,
) -> Result<Edited, OutOfMemory>
    requires is { new.now ≡ values.Component component.now }
    ensures { IfOk result (λ written. Writes sides.now.unit.now written
        (λ app. slot_writes app sides.now (place_on place.now) new.now old.now)) }
{
    let levels = down(levels)?;
    match old {
        DynamicNode::Component(was) => {
            if is_same_component(was, component) {
                child_written(alloc, sides, place, levels)
            } else {
                slot_replaced(alloc, sides, place, new, old)
            }
        }
        DynamicNode::Text(_) => slot_replaced(alloc, sides, place, new, old),
        DynamicNode::Placeholder => slot_replaced(alloc, sides, place, new, old),
        DynamicNode::Fragment(_) => slot_replaced(alloc, sides, place, new, old),
    }
}

// What a fragment writes in a slot.
#[cycle(written)]
#[tactic(auto, using(crate::proofs::Writings::writings))]
fn fragment_written<P: Parts>(
    alloc: Global,
    sides: &Sides<'_, P>,
    place: &Trail<'_>,
    trees: &Shared<VNode<P>>,
    new: &DynamicNode<P>,
    old: &DynamicNode<P>,
    levels: u64,
) -> Result<Edited, OutOfMemory>
    requires is { new.now ≡ values.Fragment trees.now }
    ensures { IfOk result (λ written. Writes sides.now.unit.now written
        (λ app. slot_writes app sides.now (place_on place.now) new.now old.now)) }
{
    let levels = down(levels)?;
    match old {
        DynamicNode::Fragment(were) => {
            if trees.is_empty() {
                return no_items_written(alloc, sides, place, were, new, old);
            }
            if were.is_empty() {
                return slot_replaced(alloc, sides, place, new, old);
            }
            items_written(
                alloc,
                sides,
                place,
                trees.as_slice(),
                were.as_slice(),
                levels,
            )
        }
        DynamicNode::Text(_) => slot_replaced(alloc, sides, place, new, old),
        DynamicNode::Placeholder => slot_replaced(alloc, sides, place, new, old),
        DynamicNode::Component(_) => slot_replaced(alloc, sides, place, new, old),
    }
}

// What a matched child scope writes; nothing where it was to be fed and was refused. Where no child
// writes anything it isn't looked for.
#[cycle(written)]
#[tactic(auto, using(crate::proofs::Writings::writings))]
fn child_written<P: Parts>(
    alloc: Global,
    sides: &Sides<'_, P>,
    place: &Trail<'_>,
    levels: u64,
) -> Result<Edited, OutOfMemory>
    ensures { IfOk result (λ written. Writes sides.now.unit.now written
        (λ app. child_writes app sides.now (place_on place.now))) }
{
    let levels = down(levels)?;
    if sides.quiet {
        return Ok(nothing(alloc));
    }
    match sides.old.side.child_on(place) {
        Some(child) => {
            if is_place(place, sides.stop) && !is_on_way(sides.unit.way, child) {
                return Ok(halts(alloc));
            }
            written_within(alloc, sides.unit, sides.depth, child, levels)
        }
        None => Ok(nothing(alloc)),
    }
}

// Pairs in order, then what is new after the last node of the item before, or what is over is
// removed.
#[cycle(written)]
#[tactic(auto, using(crate::proofs::Writings::writings))]
fn items_written<P: Parts>(
    alloc: Global,
    sides: &Sides<'_, P>,
    place: &Trail<'_>,
    new: &[VNode<P>],
    old: &[VNode<P>],
    levels: u64,
) -> Result<Edited, OutOfMemory>
    ensures { IfOk result (λ written. Writes sides.now.unit.now written
        (λ app. items_writes app sides.now (place_on place.now) 0 0 new.now old.now)) }
{
    let levels = down(levels)?;
    let mut written = nothing(alloc);
    for position in 0..new.len() {
        if written.stopped {
            return Ok(written);
        }
        if position == old.len() {
            let rest = items_inserted(alloc, sides, place, new, position)?;
            return then_on(written, rest);
        }
        let above = Trail::Item(&*place, position as u64);
        let item = tree_written(alloc, sides, &above, &new[position], &old[position], levels)?;
        written = then_on(written, item)?;
    }
    if written.stopped {
        return Ok(written);
    }
    let first = new.len() as u64;
    let over = items_tops(alloc, sides.old, first, place, &old[new.len()..])?;
    then_on(written, writes(removals(alloc, over.as_slice())?))
}
