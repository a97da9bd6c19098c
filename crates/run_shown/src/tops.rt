//! The numbers of the nodes at the top of what shows. A node that is removed or gives way takes
//! along what is below it, so nothing below is looked at.

ghost use Rattle.std.specs.Prelude.{◌≡◌, ◌++◌, ◌∷◌, [], IfOk, OnOk};
ghost use Rattle.run_places.specs.Trails.{place_on};
ghost use Rattle.run_shown.specs.Pieces.{side_pieces, tops_by};
ghost use Rattle.run_shown.specs.Seen.{items_in, scope_seen, seen_by, tree_in, value_in};
ghost use Rattle.run_shown.specs.Tops.{tops_of};

use crate::asked::Asked;
use crate::given::numbers_given;
use crate::look::Look;
use crate::pieces::{Top, items_pieces, slot_pieces, tree_pieces};
use crate::showing::Shown;
use rt_values::{List, OutOfMemory};
use run_places::{LEVELS, Side, Trail, down};
use std::alloc::Global;
use tree_nodes::{DynamicNode, Parts, VNode};

/// The numbers of the top nodes that a scope shows.
pub(crate) fn scope_tops<P: Parts>(
    alloc: Global,
    look: &Look<'_, P>,
    scope: u64,
) -> Result<List<u64>, OutOfMemory>
    ensures { IfOk result (λ tops. tops ≡ tops_of (scope_seen look.now look.now.scopes scope)) }
{
    let mut tops = List::new(alloc);
    add_scope(alloc, look, look.scopes(), scope, LEVELS, &mut tops)?;
    Ok(tops)
}

/// The numbers of the top nodes of a tree that stands at `above`.
pub(crate) fn tree_tops<P: Parts>(
    alloc: Global,
    shown: &Shown<'_, P>,
    tree: &VNode<P>,
    above: &Trail<'_>,
) -> Result<List<u64>, OutOfMemory>
    ensures { IfOk result (λ tops.
        tops ≡ tops_of (tree_in shown.now tree.now (place_on above.now))) }
{
    let pieces = tree_pieces(alloc, shown.side, tree, above)?;
    numbers_of(alloc, &shown.asked, pieces.as_slice())
}

/// The numbers of the top nodes of what stands in a slot at a place.
pub(crate) fn slot_tops<P: Parts>(
    alloc: Global,
    shown: &Shown<'_, P>,
    value: &DynamicNode<P>,
    place: &Trail<'_>,
) -> Result<List<u64>, OutOfMemory>
    ensures { IfOk result (λ tops.
        tops ≡ tops_of (value_in shown.now value.now (place_on place.now))) }
{
    let pieces = slot_pieces(alloc, shown.side, value, place)?;
    numbers_of(alloc, &shown.asked, pieces.as_slice())
}

/// The numbers of the top nodes of a fragment's items, the first of which has the position `first`.
pub(crate) fn items_tops<P: Parts>(
    alloc: Global,
    shown: &Shown<'_, P>,
    first: u64,
    place: &Trail<'_>,
    trees: &[VNode<P>],
) -> Result<List<u64>, OutOfMemory>
    ensures { IfOk result (λ tops.
        tops ≡ tops_of (items_in shown.now first (place_on place.now) trees.now)) }
{
    let pieces = items_pieces(alloc, shown.side, first, place, trees)?;
    numbers_of(alloc, &shown.asked, pieces.as_slice())
}

// The numbers of what stands at the top, where child scopes show what is asked of them.
fn numbers_of<P: Parts>(
    alloc: Global,
    asked: &Asked<'_, P>,
    pieces: &[Top],
) -> Result<List<u64>, OutOfMemory>
    ensures { IfOk result (λ tops. tops ≡ tops_by (λ t. seen_by asked.now t) pieces.now) }
{
    match asked {
        Asked::Look(look, depth) => {
            let mut tops = List::new(alloc);
            add_all(alloc, look, *depth, pieces, LEVELS, &mut tops)?;
            Ok(tops)
        }
        Asked::Given(given) => numbers_given(alloc, given, pieces),
    }
}

// Puts those of a scope after the others, at most `depth` scopes deep.
#[cycle(tops)]
#[tactic(auto, using(crate::proofs::TopsSeen::tops))]
fn add_scope<P: Parts>(
    alloc: Global,
    look: &Look<'_, P>,
    depth: u64,
    scope: u64,
    levels: u64,
    tops: &mut List<u64>,
) -> Result<(), OutOfMemory>
    ensures { OnOk result (tops.new ≡ tops.old ++ tops_of (scope_seen look.now depth scope)) }
{
    let levels = down(levels)?;
    if depth == 0 {
        return Ok(());
    }
    match look.shown_side(scope) {
        Some(side) => {
            let pieces = side_pieces(alloc, side)?;
            add_all(alloc, look, depth - 1, pieces.as_slice(), levels, tops)
        }
        None => Ok(()),
    }
}

// Puts the numbers of what stands at the top after the others.
#[cycle(tops)]
#[tactic(auto, using(crate::proofs::TopsSeen::tops))]
fn add_all<P: Parts>(
    alloc: Global,
    look: &Look<'_, P>,
    depth: u64,
    pieces: &[Top],
    levels: u64,
    tops: &mut List<u64>,
) -> Result<(), OutOfMemory>
    ensures { OnOk result (tops.new
        ≡ tops.old ++ tops_by (λ t. scope_seen look.now depth t) pieces.now) }
{
    let levels = down(levels)?;
    for piece in pieces {
        add_one(alloc, look, depth, *piece, levels, tops)?;
    }
    Ok(())
}

#[cycle(tops)]
#[tactic(auto, using(crate::proofs::TopsSeen::tops))]
fn add_one<P: Parts>(
    alloc: Global,
    look: &Look<'_, P>,
    depth: u64,
    piece: Top,
    levels: u64,
    tops: &mut List<u64>,
) -> Result<(), OutOfMemory>
    ensures { OnOk result (tops.new
        ≡ tops.old ++ tops_by (λ t. scope_seen look.now depth t) (piece ∷ [])) }
{
    let levels = down(levels)?;
    match piece {
        Top::Own(number) => tops.push(number),
        Top::Child(scope) => add_scope(alloc, look, depth, scope, levels, tops),
    }
}

// What stands at the top of a side's tree, if it has one.
#[tactic(auto, using(crate::proofs::PieceRows::pieces))]
fn side_pieces<P: Parts>(alloc: Global, side: &Side<P>) -> Result<List<Top>, OutOfMemory>
    ensures { IfOk result (λ tops. tops ≡ side_pieces side.now) }
{
    match &side.output {
        Some(tree) => Ok(tree_pieces(alloc, side, tree, &Trail::Root)?),
        None => Ok(List::new(alloc)),
    }
}
