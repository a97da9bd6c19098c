//! What stands at the places of a tree, depth first.

ghost use Rattle.std.specs.Prelude.{◌≡◌, ◌++◌, ◌∷◌, [], map, IfOk, OnOk};
ghost use Rattle.rt_model.specs.Tree.{node_at, component_at};
ghost use Rattle.tree_mirror.specs.Sealed.{component_of};
ghost use Rattle.run_places.specs.Places.{kind_of, place_of, spot_of};
ghost use Rattle.run_places.specs.Spots.{tree_spots, value_spots, items_spots, piece_spots};

use crate::piece::{Piece, pieces_of};
use crate::place::{Kind, Place, place_inside, place_of_item};
use rt_values::{List, OutOfMemory, Shared};
use std::alloc::Global;
use tree_nodes::{DynamicNode, Parts, VComponent, VNode};

/// What stands at a place: one node of the document, or a component.
#[derive(Drop)]
pub enum Spot<P: Parts> {
    Node {
        place: Place,
        kind: Kind,
    },
    Component {
        place: Place,
        component: VComponent<P>,
    },
}

/// The nodes and the component slots of a tree, depth first.
pub fn spots<P: Parts>(alloc: Global, tree: &VNode<P>) -> Result<List<Spot<P>>, OutOfMemory>
    ensures { IfOk result (λ found. map spot_of found ≡ tree_spots [] tree.now) }
{
    let mut found = List::new(alloc);
    add_spots(alloc, &Place::at(Shared::empty()), tree, &mut found)?;
    Ok(found)
}

#[cycle(spots)]
#[tactic(auto, using(crate::proofs::Stands::stands))]
fn add_spots<P: Parts>(
    alloc: Global,
    above: &Place,
    tree: &VNode<P>,
    found: &mut List<Spot<P>>,
) -> Result<(), OutOfMemory>
    ensures { OnOk result (map spot_of found.new
        ≡ map spot_of found.old ++ tree_spots (place_of above.now) tree.now) }
{
    let pieces = pieces_of(alloc, tree.template.roots(), tree.template.hints())?;
    for piece in pieces.as_slice() {
        add_piece(alloc, above, tree, piece, found)?;
    }
    Ok(())
}

#[cycle(spots)]
#[tactic(auto, using(crate::proofs::Stands::stands))]
fn add_piece<P: Parts>(
    alloc: Global,
    above: &Place,
    tree: &VNode<P>,
    piece: &Piece,
    found: &mut List<Spot<P>>,
) -> Result<(), OutOfMemory>
    ensures { OnOk result (map spot_of found.new
        ≡ map spot_of found.old ++ piece_spots (place_of above.now) tree.now piece.now) }
{
    match piece {
        Piece::Element { path, .. } => {
            let place = place_inside(alloc, above, &tree.template, path)?;
            push_node(place, Kind::Element, found)
        }
        Piece::Text { path } => {
            let place = place_inside(alloc, above, &tree.template, path)?;
            push_node(place, Kind::StaticText, found)
        }
        Piece::Slot { id, path } => {
            let place = place_inside(alloc, above, &tree.template, path)?;
            match tree.dynamic_nodes.get(*id as usize) {
                Some(value) => add_value(alloc, value, place, found),
                None => Ok(()),
            }
        }
    }
}

#[cycle(spots)]
#[tactic(auto, using(crate::proofs::Stands::stands))]
fn add_value<P: Parts>(
    alloc: Global,
    value: &DynamicNode<P>,
    place: Place,
    found: &mut List<Spot<P>>,
) -> Result<(), OutOfMemory>
    ensures { OnOk result (map spot_of found.new
        ≡ map spot_of found.old ++ value_spots value.now (place_of place)) }
{
    match value {
        DynamicNode::Text(_) => push_node(place, Kind::Text, found),
        DynamicNode::Placeholder => push_node(place, Kind::Placeholder, found),
        DynamicNode::Component(component) => {
            push_component(place, component.copy(alloc)?, found)
        }
        DynamicNode::Fragment(trees) => {
            if trees.is_empty() {
                return push_node(place, Kind::EmptyFragment, found);
            }
            add_items(alloc, trees.as_slice(), &place, found)
        }
    }
}

#[cycle(spots)]
#[tactic(auto, using(crate::proofs::Stands::stands))]
fn add_items<P: Parts>(
    alloc: Global,
    trees: &[VNode<P>],
    place: &Place,
    found: &mut List<Spot<P>>,
) -> Result<(), OutOfMemory>
    ensures { OnOk result (map spot_of found.new
        ≡ map spot_of found.old ++ items_spots 0 (place_of place.now) trees.now) }
{
    for position in 0..trees.len() {
        let below = place_of_item(alloc, place, position as u64)?;
        add_spots(alloc, &below, &trees[position], found)?;
    }
    Ok(())
}

#[tactic(auto, using(crate::proofs::Stands::stands))]
fn push_node<P: Parts>(
    place: Place,
    kind: Kind,
    found: &mut List<Spot<P>>,
) -> Result<(), OutOfMemory>
    ensures { OnOk result (map spot_of found.new
        ≡ map spot_of found.old ++ node_at (place_of place) (kind_of kind) ∷ []) }
{
    found.push(Spot::Node { place, kind })
}

#[tactic(auto, using(crate::proofs::Stands::stands))]
fn push_component<P: Parts>(
    place: Place,
    component: VComponent<P>,
    found: &mut List<Spot<P>>,
) -> Result<(), OutOfMemory>
    ensures { OnOk result (map spot_of found.new
        ≡ map spot_of found.old
        ++ component_at (place_of place) (component_of component) ∷ []) }
{
    found.push(Spot::Component { place, component })
}
