//! The way from a node of the document up to its root: what the attribute slots of each element on
//! it give. It is looked for in all that shows.

ghost use Rattle.std.specs.Prelude.{◌≡◌, ◌++◌, ◌∷◌, [], Some, None, IfOk, OnOk, if◌then◌else◌, nat_eq};
ghost use Rattle.rt_model.specs.Heard.{below_element, leaf_climb};
ghost use Rattle.rt_model.specs.Tree.{an_element};
ghost use Rattle.run_places.specs.Places.{kind_of};
ghost use Rattle.run_places.specs.Trails.{path_of, place_on};
ghost use Rattle.run_places.specs.Sides.{number_in};
ghost use Rattle.run_shown.specs.Climbs.{child_climb, climb_found, climb_of, entries_slots, entry_slots, items_climb_in, node_climb_in, row_climb_in, scope_climb, side_climb, slots_of, tree_climb_in, value_climb_in};

use crate::look::Look;
use rt_values::{List, OutOfMemory, Part, Shared};
use run_attributes::attributes_in;
use run_places::{Kind, Path, Side, Trail, down};
use std::alloc::Global;
use tree_nodes::{Attribute, DynamicNode, Parts, TemplateAttribute, TemplateNode, VNode};

/// The attribute slots of one element.
pub(crate) type Slots<P> = List<List<Attribute<P>>>;

/// The attribute slots of a node and of each element above it, innermost first.
pub(crate) type Climb<P> = List<Slots<P>>;

/// A side on which a number is looked for, with the scopes that its components show.
#[derive(Drop)]
pub(crate) struct Climbed<'a, P: Parts> {
    pub look: &'a Look<'a, P>,
    pub side: &'a Side<P>,
    /// How many scopes deep its components may go.
    pub depth: u64,
}

/// A tree of such a side, at its place.
#[derive(Drop)]
pub(crate) struct Rooted<'a, P: Parts> {
    pub shown: &'a Climbed<'a, P>,
    pub tree: &'a VNode<P>,
    pub above: &'a Trail<'a>,
}

/// Below a scope, at most `depth` scopes deep.
#[cycle(find)]
#[tactic(auto, using(crate::proofs::Climbing::climbing))]
pub(crate) fn find_within<P: Parts>(
    alloc: Global,
    look: &Look<'_, P>,
    number: u64,
    depth: u64,
    scope: u64,
    levels: u64,
) -> Result<Option<Climb<P>>, OutOfMemory>
    ensures { IfOk result (λ found. climb_found found ≡ scope_climb look.now number depth scope) }
{
    let levels = down(levels)?;
    if depth == 0 {
        return Ok(None);
    }
    match look.shown_side(scope) {
        Some(side) => find_side(
            alloc,
            &Climbed {
                look: &*look,
                side,
                depth: depth - 1,
            },
            number,
            levels,
        ),
        None => Ok(None),
    }
}

#[cycle(find)]
#[tactic(auto, using(crate::proofs::Climbing::climbing))]
fn find_side<P: Parts>(
    alloc: Global,
    shown: &Climbed<'_, P>,
    number: u64,
    levels: u64,
) -> Result<Option<Climb<P>>, OutOfMemory>
    ensures { IfOk result (λ found. climb_found found
        ≡ side_climb shown.now.look.now number shown.now.depth shown.now.side.now) }
{
    let levels = down(levels)?;
    match &shown.side.output {
        Some(tree) => find_tree(alloc, shown, number, tree, &Trail::Root, levels),
        None => Ok(None),
    }
}

#[cycle(find)]
#[tactic(auto, using(crate::proofs::Climbing::climbing))]
pub(crate) fn find_tree<P: Parts>(
    alloc: Global,
    shown: &Climbed<'_, P>,
    number: u64,
    tree: &VNode<P>,
    above: &Trail<'_>,
    levels: u64,
) -> Result<Option<Climb<P>>, OutOfMemory>
    ensures { IfOk result (λ found. climb_found found
        ≡ tree_climb_in shown.now number tree.now (place_on above.now)) }
{
    let levels = down(levels)?;
    let standing = Rooted {
        shown: &*shown,
        tree,
        above: &*above,
    };
    find_nodes(
        alloc,
        &standing,
        number,
        &Path::Top,
        tree.template.roots(),
        levels,
    )
}

#[cycle(find)]
#[tactic(auto, using(crate::proofs::Climbing::climbing))]
pub(crate) fn find_nodes<P: Parts>(
    alloc: Global,
    standing: &Rooted<'_, P>,
    number: u64,
    up: &Path<'_>,
    nodes: &[TemplateNode],
    levels: u64,
) -> Result<Option<Climb<P>>, OutOfMemory>
    ensures { IfOk result (λ found. climb_found found
        ≡ row_climb_in standing.now number (path_of up.now) 0 nodes.now) }
{
    let levels = down(levels)?;
    for index in 0..nodes.len() {
        let node = &nodes[index];
        if let Some(climb) = find_node(alloc, standing, number, up, index as u64, node, levels)? {
            return Ok(Some(climb));
        }
    }
    Ok(None)
}

#[cycle(find)]
#[tactic(auto, using(crate::proofs::Climbing::climbing))]
fn find_node<P: Parts>(
    alloc: Global,
    standing: &Rooted<'_, P>,
    number: u64,
    up: &Path<'_>,
    index: u64,
    node: &TemplateNode,
    levels: u64,
) -> Result<Option<Climb<P>>, OutOfMemory>
    ensures { IfOk result (λ found. climb_found found
        ≡ node_climb_in standing.now number (path_of up.now) index node.now) }
{
    let levels = down(levels)?;
    let path = Path::Below(&*up, index);
    let place = Trail::Inside(&*standing.above, &standing.tree.template, &path);
    match node {
        TemplateNode::Element {
            attrs,
            children,
            ..
        } => {
            let slots = slots_on(alloc, &standing.tree.dynamic_attrs, attrs.as_slice())?;
            if is_numbered(standing.shown, &place, Kind::Element, number) {
                return Ok(Some(alone(alloc, slots)?));
            }
            let nodes = children.as_slice();
            let found = find_nodes(alloc, standing, number, &path, nodes, levels)?;
            below_element(slots, found)
        }
        TemplateNode::Text { .. } => {
            leaf_climb(alloc, standing.shown, &place, Kind::StaticText, number)
        }
        TemplateNode::Dynamic { id } => match standing.tree.dynamic_nodes.get(*id as usize) {
            Some(value) => find_slot(alloc, standing.shown, number, value, &place, levels),
            None => Ok(None),
        },
    }
}

#[cycle(find)]
#[tactic(auto, using(crate::proofs::Climbing::climbing))]
fn find_slot<P: Parts>(
    alloc: Global,
    shown: &Climbed<'_, P>,
    number: u64,
    value: &DynamicNode<P>,
    place: &Trail<'_>,
    levels: u64,
) -> Result<Option<Climb<P>>, OutOfMemory>
    ensures { IfOk result (λ found. climb_found found
        ≡ value_climb_in shown.now number value.now (place_on place.now)) }
{
    let levels = down(levels)?;
    match value {
        DynamicNode::Text(_) => leaf_climb(alloc, shown, place, Kind::Text, number),
        DynamicNode::Placeholder => leaf_climb(alloc, shown, place, Kind::Placeholder, number),
        DynamicNode::Component(_) => find_child(alloc, shown, number, place, levels),
        DynamicNode::Fragment(trees) => {
            if trees.is_empty() {
                return leaf_climb(alloc, shown, place, Kind::EmptyFragment, number);
            }
            find_items(alloc, shown, number, place, trees.as_slice(), levels)
        }
    }
}

#[cycle(find)]
#[tactic(auto, using(crate::proofs::Climbing::climbing))]
fn find_child<P: Parts>(
    alloc: Global,
    shown: &Climbed<'_, P>,
    number: u64,
    place: &Trail<'_>,
    levels: u64,
) -> Result<Option<Climb<P>>, OutOfMemory>
    ensures { IfOk result (λ found. climb_found found
        ≡ child_climb shown.now.look.now number shown.now.depth shown.now.side.now
        (place_on place.now)) }
{
    let levels = down(levels)?;
    match shown.side.child_on(place) {
        Some(child) => find_within(alloc, shown.look, number, shown.depth, child, levels),
        None => Ok(None),
    }
}

#[cycle(find)]
#[tactic(auto, using(crate::proofs::Climbing::climbing))]
pub(crate) fn find_items<P: Parts>(
    alloc: Global,
    shown: &Climbed<'_, P>,
    number: u64,
    place: &Trail<'_>,
    trees: &[VNode<P>],
    levels: u64,
) -> Result<Option<Climb<P>>, OutOfMemory>
    ensures { IfOk result (λ found. climb_found found
        ≡ items_climb_in shown.now number (place_on place.now) trees.now) }
{
    let levels = down(levels)?;
    for position in 0..trees.len() {
        let above = Trail::Item(&*place, position as u64);
        if let Some(climb) = find_tree(alloc, shown, number, &trees[position], &above, levels)? {
            return Ok(Some(climb));
        }
    }
    Ok(None)
}

// Whether the node of a kind at a place has this number.
fn is_numbered<P: Parts>(shown: &Climbed<'_, P>, place: &Trail<'_>, kind: Kind, number: u64) -> bool
    ensures { result
        ≡ nat_eq (number_in shown.now.side.now (place_on place.now) (kind_of kind)) number }
{
    shown.side.number_on(place, kind) == number
}

/// A text or placeholder has no slots of its own.
#[tactic(auto, using(crate::proofs::Climbing::climbing))]
pub(crate) fn leaf_climb<P: Parts>(
    alloc: Global,
    shown: &Climbed<'_, P>,
    place: &Trail<'_>,
    kind: Kind,
    number: u64,
) -> Result<Option<Climb<P>>, OutOfMemory>
    ensures { IfOk result (λ found. climb_found found
        ≡ leaf_climb number
        (number_in shown.now.side.now (place_on place.now) (kind_of kind))) }
{
    if is_numbered(shown, place, kind, number) {
        Ok(Some(alone(alloc, List::new(alloc))?))
    } else {
        Ok(None)
    }
}

/// The climb from an element, where it has the number.
pub(crate) fn own_climb<P: Parts>(
    alloc: Global,
    shown: &Climbed<'_, P>,
    place: &Trail<'_>,
    slots: Slots<P>,
    number: u64,
) -> Result<Option<Climb<P>>, OutOfMemory>
    ensures { IfOk result (λ found. climb_found found
        ≡ (if nat_eq (number_in shown.now.side.now (place_on place.now) an_element) number
        then Some (slots_of slots ∷ []) else None)) }
{
    if is_numbered(shown, place, Kind::Element, number) {
        Ok(Some(alone(alloc, slots)?))
    } else {
        Ok(None)
    }
}

// The climb that begins and ends at one element.
#[tactic(auto, using(crate::proofs::Climbing::climbing))]
fn alone<P: Parts>(alloc: Global, slots: Slots<P>) -> Result<Climb<P>, OutOfMemory>
    ensures { IfOk result (λ climb. climb_of climb ≡ slots_of slots ∷ []) }
{
    let mut climb = List::new(alloc);
    climb.push(slots)?;
    Ok(climb)
}

/// The attribute slots of an element stand around what was found in it.
#[tactic(auto, using(crate::proofs::Climbing::climbing))]
pub(crate) fn below_element<P: Parts>(
    slots: Slots<P>,
    found: Option<Climb<P>>,
) -> Result<Option<Climb<P>>, OutOfMemory>
    ensures { IfOk result (λ climb. climb_found climb
        ≡ below_element (slots_of slots) (climb_found found)) }
{
    match found {
        Some(mut climb) => {
            climb.push(slots)?;
            Ok(Some(climb))
        }
        None => Ok(None),
    }
}

/// What the attribute slots of an element give.
#[tactic(auto, using(crate::proofs::Climbing::climbing))]
pub(crate) fn slots_on<P: Parts>(
    alloc: Global,
    given: &Shared<List<Attribute<P>>>,
    attributes: &[TemplateAttribute],
) -> Result<Slots<P>, OutOfMemory>
    ensures { IfOk result (λ slots. slots_of slots ≡ entries_slots given.now attributes.now) }
{
    let mut slots = List::new(alloc);
    for attribute in attributes {
        add_slot(alloc, given, attribute, &mut slots)?;
    }
    Ok(slots)
}

#[tactic(auto, using(crate::proofs::Climbing::climbing))]
fn add_slot<P: Parts>(
    alloc: Global,
    given: &Shared<List<Attribute<P>>>,
    attribute: &TemplateAttribute,
    slots: &mut Slots<P>,
) -> Result<(), OutOfMemory>
    ensures { OnOk result (slots_of slots.new
        ≡ slots_of slots.old ++ entry_slots given.now attribute.now) }
{
    match attribute {
        TemplateAttribute::Static { .. } => Ok(()),
        TemplateAttribute::Dynamic { id } => {
            slots.push(copied(alloc, attributes_in(given.as_slice(), *id))?)
        }
    }
}

fn copied<P: Parts>(
    alloc: Global,
    attributes: &[Attribute<P>],
) -> Result<List<Attribute<P>>, OutOfMemory>
    ensures { IfOk result (λ copy. copy ≡ attributes.now) }
{
    let mut copy = List::new(alloc);
    for attribute in attributes {
        copy.push(attribute.copy(alloc)?)?;
    }
    Ok(copy)
}
