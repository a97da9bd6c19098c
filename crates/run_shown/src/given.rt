//! What a side shows where the nodes of its child scopes were given.

ghost use Rattle.std.specs.Prelude.{ℕ, ◌≡◌, ◌++◌, ◌∷◌, [], map, IfOk, OnOk};
ghost use Rattle.rt_model.specs.View as model;
ghost use Rattle.run_places.specs.Places.{side_of};
ghost use Rattle.run_places.specs.Trails.{place_on};
ghost use Rattle.tree_edits.specs.Documents.{forest_of};
ghost use Rattle.tree_mirror.specs.Mirror.{trees_from};
ghost use Rattle.tree_mirror.specs.Sealed.{slot_of, tree_of};
ghost use Rattle.run_shown.specs.Given.{given_to};
ghost use Rattle.run_shown.specs.Pieces.{tops_by};
ghost use Rattle.run_shown.specs.Seen.{seen_by};
ghost use Rattle.run_shown.specs.Unknowns.{first_in, is_given, last_in, unknown_in};

use crate::asked::{Asked, GivenRows, add_given};
use crate::pieces::Top;
use crate::rows;
use crate::showing::Shown;
use rt_edits::DocNode;
use rt_values::{List, OutOfMemory};
use run_places::{Side, Trail};
use std::alloc::Global;
use std::cell::Cell;
use tree_nodes::{DynamicNode, Parts, VNode};

impl GivenRows {
    /// None was given.
    pub fn none(alloc: Global) -> GivenRows
        ensures none { result.rows ≡ [] }
    {
        GivenRows {
            rows: List::new(alloc),
        }
    }

    /// One row more, which counts where its scope has none yet.
    pub fn put(&mut self, scope: u64, nodes: List<DocNode>) -> Result<(), OutOfMemory>
        ensures more { OnOk result (self.new.rows ≡ self.old.rows ++ (scope, nodes) ∷ []) }
    {
        self.rows.push((scope, nodes))
    }

    /// Whether a scope has a row.
    pub fn has(&self, scope: u64) -> bool
        ensures { result ≡ is_given self.now scope }
    {
        for pair in self.rows.as_slice() {
            if pair.0 == scope {
                return true;
            }
        }
        false
    }
}

/// The nodes of a tree of a side, at its place.
pub fn tree_given<P: Parts>(
    alloc: Global,
    side: &Side<P>,
    given: &GivenRows,
    tree: &VNode<P>,
    above: &Trail<'_>,
) -> Result<List<DocNode>, OutOfMemory>
    ensures { IfOk result (λ row. forest_of row ≡ model.tree_view (side_of side.now)
        (λ t. given_to given.now t) (place_on above.now) (tree_of tree.now)) }
{
    rows::tree_view(alloc, &shown_by(side, given), tree, above)
}

/// The nodes of what stands in a slot at a place.
pub fn slot_given<P: Parts>(
    alloc: Global,
    side: &Side<P>,
    given: &GivenRows,
    value: &DynamicNode<P>,
    place: &Trail<'_>,
) -> Result<List<DocNode>, OutOfMemory>
    ensures { IfOk result (λ row. forest_of row ≡ model.slot_view (side_of side.now)
        (λ t. given_to given.now t) (slot_of value.now) (place_on place.now)) }
{
    rows::slot_view(alloc, &shown_by(side, given), value, place)
}

/// The nodes of a fragment's items, the first of which has the position `first`.
pub fn items_given<P: Parts>(
    alloc: Global,
    side: &Side<P>,
    given: &GivenRows,
    first: u64,
    place: &Trail<'_>,
    trees: &[VNode<P>],
) -> Result<List<DocNode>, OutOfMemory>
    ensures { IfOk result (λ row. forest_of row ≡ model.items_view (side_of side.now)
        (λ t. given_to given.now t) first (place_on place.now)
        (trees_from (map tree_of trees.now))) }
{
    rows::items_view(alloc, &shown_by(side, given), first, place, trees)
}

/// The numbers of what stands at the top, where child scopes show what was given for them.
pub fn numbers_given(
    alloc: Global,
    given: &GivenRows,
    pieces: &[Top],
) -> Result<List<u64>, OutOfMemory>
    ensures { IfOk result (λ tops. tops ≡ tops_by (λ t. given_to given.now t) pieces.now) }
{
    let mut tops = List::new(alloc);
    for piece in pieces {
        add_piece(given, *piece, &mut tops)?;
    }
    Ok(tops)
}

// Puts the numbers of one thing at the top after the others.
fn add_piece(given: &GivenRows, piece: Top, tops: &mut List<u64>) -> Result<(), OutOfMemory>
    ensures { OnOk result (tops.new
        ≡ tops.old ++ tops_by (λ t. given_to given.now t) (piece ∷ [])) }
{
    match piece {
        Top::Own(number) => tops.push(number),
        Top::Child(scope) => add_given(given, scope, tops),
    }
}

/// The first child scope at the top for which nothing was given.
pub fn first_unknown(given: &GivenRows, pieces: &[Top]) -> Option<u64>
    ensures { result ≡ first_in given.now pieces.now }
{
    for piece in pieces {
        if let Some(scope) = unknown(given, *piece) {
            return Some(scope);
        }
    }
    None
}

/// The child scope at the end of the top, if there is one there and nothing was given for it.
pub fn last_unknown(given: &GivenRows, pieces: &[Top]) -> Option<u64>
    ensures { result ≡ last_in given.now pieces.now }
{
    match pieces.last() {
        Some(piece) => unknown(given, *piece),
        None => None,
    }
}

// The child scope that this is, where nothing was given for it.
fn unknown(given: &GivenRows, piece: Top) -> Option<u64>
    ensures { result ≡ unknown_in given.now piece }
{
    match piece {
        Top::Own(_) => None,
        Top::Child(scope) => { if given.has(scope) { None } else { Some(scope) } }
    }
}

// A side whose components show what was given for them.
fn shown_by<'a, P: Parts>(side: &'a Side<P>, given: &'a GivenRows) -> Shown<'a, P>
    ensures side { result.side.now ≡ side.now }
    ensures asked { (t : ℕ) → seen_by result.asked t ≡ given_to given.now t }
{
    Shown {
        asked: Asked::Given(given),
        side,
        named: None,
        next: Cell::new(0),
    }
}
