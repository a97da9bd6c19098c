//! Items that are new come after the last node of those before them.

ghost use Rattle.std.specs.Prelude.{◌≡◌, ◌-◌, ◌≤◌, length, take, drop, IfOk};
ghost use Rattle.rt_model.specs.Caused as caused;
ghost use Rattle.tree_edits.specs.Documents.{forest_of};
ghost use Rattle.run_places.specs.Trails.{place_on};
ghost use Rattle.run_shown.specs.Units.{around_from, items_inserts, last_among};
ghost use Rattle.run_shown.specs.Ways.{place_found};
ghost use Rattle.run_shown.specs.Written.{edited_of};

use crate::calm::Sides;
use crate::edited::{Edited, halts, one_edit};
use crate::rows::{items_view, tree_view};
use crate::way::is_around;
use rt_edits::{DocNode, Edit};
use rt_values::{ElementId, OutOfMemory};
use run_places::{Place, Trail};
use std::alloc::Global;
use tree_nodes::{Parts, VNode};

/// The items from a position on are new.
#[tactic(auto, using(crate::proofs::Writings::writings))]
pub(crate) fn items_inserted<P: Parts>(
    alloc: Global,
    sides: &Sides<'_, P>,
    place: &Trail<'_>,
    new: &[VNode<P>],
    position: usize,
) -> Result<Edited, OutOfMemory>
    requires within { position ≤ length new.now }
    ensures { IfOk result (λ written. edited_of written
        ≡ items_inserts sides.now (place_on place.now) position
        (last_among sides.now.new.now (place_on place.now) 0 0 (take position new.now))
        (drop position new.now)) }
{
    if any_around(alloc, place, position as u64, sides.stop, new.len() as u64)? {
        return Ok(halts(alloc));
    }
    let last = last_before(alloc, sides, place, &new[..position])?;
    let nodes = items_view(alloc, sides.new, position as u64, place, &new[position..])?;
    one_edit(
        alloc,
        Edit::InsertNodesAfter {
            id: ElementId(last),
            nodes,
        },
    )
}

// Whether one of the items from a position on is the refused place or holds it.
fn any_around(
    alloc: Global,
    place: &Trail<'_>,
    first: u64,
    stop: Option<&Place>,
    end: u64,
) -> Result<bool, OutOfMemory>
    ensures { IfOk result (λ answer. answer
        ≡ around_from (place_on place.now) first (place_found stop.entry) (end - first)) }
{
    if stop.is_none() {
        return Ok(false);
    }
    for position in first..end {
        let item = Trail::Item(&*place, position);
        let around = is_around(alloc, &item, stop)?;
        if around {
            return Ok(true);
        }
    }
    Ok(false)
}

// The number of the last node of these items, 0 where they show none. It is looked for from behind,
// up to an item that shows a node.
fn last_before<P: Parts>(
    alloc: Global,
    sides: &Sides<'_, P>,
    place: &Trail<'_>,
    trees: &[VNode<P>],
) -> Result<u64, OutOfMemory>
    ensures { IfOk result (λ last. last
        ≡ last_among sides.now.new.now (place_on place.now) 0 0 trees.now) }
{
    for back in 0..trees.len() {
        let position = trees.len() - 1 - back;
        let above = Trail::Item(&*place, position as u64);
        let row = tree_view(alloc, sides.new, &trees[position], &above)?;
        if !row.is_empty() {
            return Ok(last_of(0, row.as_slice()));
        }
    }
    Ok(0)
}

// The number of a row's last node, or the one that came before the row.
fn last_of(before: u64, row: &[DocNode]) -> u64
    ensures { result ≡ caused.last_of before (forest_of row.now) }
{
    match row.last() {
        Some(node) => node.id.0,
        None => before,
    }
}
