//! What stands at the top of what a side shows: nodes of its own, and child scopes whose nodes show
//! there. Nothing below a node is looked at, and no child scope is asked.

ghost use Rattle.std.specs.Prelude.{◌≡◌, ◌++◌, ◌∷◌, [], IfOk, OnOk};
ghost use Rattle.run_places.specs.Places.{kind_of};
ghost use Rattle.run_places.specs.Trails.{path_of, place_on};
ghost use Rattle.run_shown.specs.Pieces.{child_piece, items_pieces, node_pieces, own_piece, row_pieces, tree_pieces, value_pieces};

use crate::showing::position_after;
use rt_values::{List, OutOfMemory};
use run_places::{Kind, LEVELS, Path, Side, Trail, down};
use std::alloc::Global;
use tree_nodes::{DynamicNode, Parts, TemplateNode, VNode};

/// One thing at the top.
#[derive(Clone, Copy, Debug, PartialEq, Eq)]
pub enum Top {
    /// A node of the side's own, by its number.
    Own(u64),
    /// A child scope.
    Child(u64),
}

/// A tree of a side, at its place.
#[derive(Drop)]
pub(crate) struct Stands<'a, P: Parts> {
    pub side: &'a Side<P>,
    pub tree: &'a VNode<P>,
    pub above: &'a Trail<'a>,
}

/// What stands at the top of a tree of a side, at its place.
pub fn tree_pieces<P: Parts>(
    alloc: Global,
    side: &Side<P>,
    tree: &VNode<P>,
    above: &Trail<'_>,
) -> Result<List<Top>, OutOfMemory>
    ensures { IfOk result (λ tops. tops ≡ tree_pieces side.now tree.now (place_on above.now)) }
{
    let mut tops = List::new(alloc);
    add_tree(side, tree, above, LEVELS, &mut tops)?;
    Ok(tops)
}

/// What stands at the top of what a slot at a place has.
pub fn slot_pieces<P: Parts>(
    alloc: Global,
    side: &Side<P>,
    value: &DynamicNode<P>,
    place: &Trail<'_>,
) -> Result<List<Top>, OutOfMemory>
    ensures { IfOk result (λ tops. tops ≡ value_pieces side.now value.now (place_on place.now)) }
{
    let mut tops = List::new(alloc);
    add_slot(side, value, place, LEVELS, &mut tops)?;
    Ok(tops)
}

/// What stands at the top of a fragment's items, the first of which has the position `first`.
pub fn items_pieces<P: Parts>(
    alloc: Global,
    side: &Side<P>,
    first: u64,
    place: &Trail<'_>,
    trees: &[VNode<P>],
) -> Result<List<Top>, OutOfMemory>
    ensures { IfOk result (λ tops.
        tops ≡ items_pieces side.now first 0 (place_on place.now) trees.now) }
{
    let mut tops = List::new(alloc);
    add_items(side, first, place, trees, LEVELS, &mut tops)?;
    Ok(tops)
}

#[cycle(pieces)]
#[tactic(auto, using(crate::proofs::PieceRows::pieces))]
fn add_tree<P: Parts>(
    side: &Side<P>,
    tree: &VNode<P>,
    above: &Trail<'_>,
    levels: u64,
    tops: &mut List<Top>,
) -> Result<(), OutOfMemory>
    ensures { OnOk result (tops.new ≡ tops.old
        ++ tree_pieces side.now tree.now (place_on above.now)) }
{
    let levels = down(levels)?;
    let stands = Stands {
        side: &*side,
        tree,
        above: &*above,
    };
    let nodes = tree.template.roots();
    add_nodes(&stands, &Path::Top, nodes, levels, tops)
}

// What these nodes of a template give, below the one with the path `up`.
#[cycle(pieces)]
#[tactic(auto, using(crate::proofs::PieceRows::pieces))]
fn add_nodes<P: Parts>(
    stands: &Stands<'_, P>,
    up: &Path<'_>,
    nodes: &[TemplateNode],
    levels: u64,
    tops: &mut List<Top>,
) -> Result<(), OutOfMemory>
    ensures { OnOk result (tops.new ≡ tops.old
        ++ row_pieces stands.now.side.now stands.now.tree.now (place_on stands.now.above.now)
        (path_of up.now) 0 nodes.now) }
{
    let levels = down(levels)?;
    for index in 0..nodes.len() {
        add_node(stands, up, index as u64, &nodes[index], levels, tops)?;
    }
    Ok(())
}

// What a node of a template gives, which has an index below the one with the path `up`.
#[cycle(pieces)]
#[tactic(auto, using(crate::proofs::PieceRows::pieces))]
fn add_node<P: Parts>(
    stands: &Stands<'_, P>,
    up: &Path<'_>,
    index: u64,
    node: &TemplateNode,
    levels: u64,
    tops: &mut List<Top>,
) -> Result<(), OutOfMemory>
    ensures { OnOk result (tops.new ≡ tops.old
        ++ node_pieces stands.now.side.now stands.now.tree.now (place_on stands.now.above.now)
        (path_of up.now) index node.now) }
{
    let levels = down(levels)?;
    let path = Path::Below(&*up, index);
    let place = Trail::Inside(&*stands.above, &stands.tree.template, &path);
    match node {
        TemplateNode::Element { .. } => add_own(stands.side, &place, Kind::Element, tops),
        TemplateNode::Text { .. } => add_own(stands.side, &place, Kind::StaticText, tops),
        TemplateNode::Dynamic { id } => match stands.tree.dynamic_nodes.get(*id as usize) {
            Some(value) => add_slot(stands.side, value, &place, levels, tops),
            None => Ok(()),
        },
    }
}

#[cycle(pieces)]
#[tactic(auto, using(crate::proofs::PieceRows::pieces))]
fn add_slot<P: Parts>(
    side: &Side<P>,
    value: &DynamicNode<P>,
    place: &Trail<'_>,
    levels: u64,
    tops: &mut List<Top>,
) -> Result<(), OutOfMemory>
    ensures { OnOk result (tops.new ≡ tops.old
        ++ value_pieces side.now value.now (place_on place.now)) }
{
    let levels = down(levels)?;
    match value {
        DynamicNode::Text(_) => add_own(side, place, Kind::Text, tops),
        DynamicNode::Placeholder => add_own(side, place, Kind::Placeholder, tops),
        DynamicNode::Component(_) => add_child(side, place, tops),
        DynamicNode::Fragment(trees) => {
            if trees.is_empty() {
                return add_own(side, place, Kind::EmptyFragment, tops);
            }
            add_items(side, 0, place, trees.as_slice(), levels, tops)
        }
    }
}

#[cycle(pieces)]
#[tactic(auto, using(crate::proofs::PieceRows::pieces))]
fn add_items<P: Parts>(
    side: &Side<P>,
    first: u64,
    place: &Trail<'_>,
    trees: &[VNode<P>],
    levels: u64,
    tops: &mut List<Top>,
) -> Result<(), OutOfMemory>
    ensures { OnOk result (tops.new ≡ tops.old
        ++ items_pieces side.now first 0 (place_on place.now) trees.now) }
{
    let levels = down(levels)?;
    for index in 0..trees.len() {
        let position = position_after(first, index as u64)?;
        let above = Trail::Item(&*place, position);
        add_tree(side, &trees[index], &above, levels, tops)?;
    }
    Ok(())
}

// The side's own node at a place.
fn add_own<P: Parts>(
    side: &Side<P>,
    place: &Trail<'_>,
    kind: Kind,
    tops: &mut List<Top>,
) -> Result<(), OutOfMemory>
    ensures { OnOk result (tops.new ≡ tops.old
        ++ own_piece side.now (place_on place.now) (kind_of kind)) }
{
    let number = side.number_on(place, kind);
    tops.push(Top::Own(number))
}

// The child scope at a place, if there is one.
fn add_child<P: Parts>(
    side: &Side<P>,
    place: &Trail<'_>,
    tops: &mut List<Top>,
) -> Result<(), OutOfMemory>
    ensures { OnOk result (tops.new ≡ tops.old ++ child_piece side.now (place_on place.now)) }
{
    match side.child_on(place) {
        Some(child) => tops.push(Top::Child(child)),
        None => Ok(()),
    }
}
