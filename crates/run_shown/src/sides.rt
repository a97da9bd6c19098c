//! The scopes before and after a unit, and nodes that give way to others.

ghost use Rattle.std.specs.Prelude.{ℕ, ◌≡◌, ◌&&◌, map, IfOk};
ghost use Rattle.rt_model.specs.Document.{Forest};
ghost use Rattle.rt_model.specs.Caused as caused;
ghost use Rattle.tree_edits.specs.Documents.{edit_of, forest_of};
ghost use Rattle.run_places.specs.Trails.{place_on};
ghost use Rattle.run_shown.specs.Look.{look_is_shown};
ghost use Rattle.run_shown.specs.Seen.{scope_seen, seen_by, seen_within};
ghost use Rattle.run_shown.specs.Tops.{removed, replaced, tops_of};
ghost use Rattle.run_shown.specs.Units.{slot_replaces, tree_replaces};
ghost use Rattle.run_shown.specs.Ways.{place_found};
ghost use Rattle.run_shown.specs.Written.{edited_of};

use crate::asked::Asked;
use crate::calm::Sides;
use crate::edited::{Edited, halts, writes};
use crate::look::Look;
use crate::rows::{scope_view, slot_view, tree_view};
use crate::scope_set::ScopeSet;
use crate::showing::Shown;
use crate::tops::{scope_tops, slot_tops, tree_tops};
use crate::way::{Stop, is_around};
use rt_edits::{DocNode, Edit};
use rt_values::{ElementId, List, OutOfMemory, both};
use run_places::{Place, Side, Trail};
use std::alloc::Global;
use std::cell::Cell;
use tree_nodes::{DynamicNode, Parts, VNode};

/// The scopes before and after a unit, and the way to what was refused in it.
#[derive(Drop)]
pub(crate) struct Unit<'a, P: Parts> {
    pub before: &'a Look<'a, P>,
    pub after: &'a Look<'a, P>,
    pub way: &'a [Stop],
    /// The scopes that it may have changed, with those above them; none where all may have been.
    pub touched: Option<&'a ScopeSet>,
}

/// Whether a scope is shown both before and after.
pub(crate) fn is_shown_in_both<P: Parts>(unit: &Unit<'_, P>, scope: u64) -> bool
    ensures { result
        ≡ (look_is_shown unit.now.before.now scope && look_is_shown unit.now.after.now scope) }
{
    unit.before.is_shown(scope) && unit.after.is_shown(scope)
}

/// A side with all that its components show.
pub(crate) fn shown_in<'a, P: Parts>(look: &'a Look<'a, P>, side: &'a Side<P>) -> Shown<'a, P>
    ensures seen { (t : ℕ) → seen_by result.asked t ≡ seen_within look.now look.now.scopes t }
    ensures side { result.side.now ≡ side.now }
{
    Shown {
        asked: Asked::Look(look, look.scopes()),
        side,
        named: None,
        next: Cell::new(0),
    }
}

/// The nodes of the side that showed give way to those of the one that shows now.
pub(crate) fn scope_replaced<P: Parts>(
    alloc: Global,
    unit: &Unit<'_, P>,
    scope: u64,
) -> Result<Edited, OutOfMemory>
    ensures { IfOk result (λ written. edited_of written ≡ caused.writes (caused.replaced_by
        (scope_seen unit.now.before.now unit.now.before.now.scopes scope)
        (scope_seen unit.now.after.now unit.now.after.now.scopes scope))) }
{
    let old = scope_tops(alloc, unit.before, scope);
    let new = scope_view(alloc, unit.after, scope);
    replaces(alloc, old, new)
}

/// A tree's old nodes give way to those of the new one.
pub(crate) fn tree_replaced<P: Parts>(
    alloc: Global,
    sides: &Sides<'_, P>,
    above: &Trail<'_>,
    new: &VNode<P>,
    old: &VNode<P>,
) -> Result<Edited, OutOfMemory>
    ensures { IfOk result (λ written. edited_of written
        ≡ tree_replaces sides.now (place_on above.now) new.now old.now) }
{
    let old = tree_tops(alloc, sides.old, old, above);
    let new = tree_view(alloc, sides.new, new, above);
    give_way(alloc, sides.stop, above, old, new)
}

/// A slot's old nodes give way to its new ones.
pub(crate) fn slot_replaced<P: Parts>(
    alloc: Global,
    sides: &Sides<'_, P>,
    place: &Trail<'_>,
    new: &DynamicNode<P>,
    old: &DynamicNode<P>,
) -> Result<Edited, OutOfMemory>
    ensures { IfOk result (λ written. edited_of written
        ≡ slot_replaces sides.now (place_on place.now) new.now old.now) }
{
    let old = slot_tops(alloc, sides.old, old, place);
    let new = slot_view(alloc, sides.new, new, place);
    give_way(alloc, sides.stop, place, old, new)
}

// Old nodes at a place give way to new ones, unless the refused place is this one or within it.
fn give_way(
    alloc: Global,
    stop: Option<&Place>,
    place: &Trail<'_>,
    old: Result<List<u64>, OutOfMemory>,
    new: Result<List<DocNode>, OutOfMemory>,
) -> Result<Edited, OutOfMemory>
    ensures { (f g : Forest) →
        IfOk old (λ tops. tops ≡ tops_of f) → IfOk new (λ row. forest_of row ≡ g) →
        IfOk result (λ written. edited_of written ≡ caused.built_whole (place_found stop.entry)
        (place_on place.now) (caused.replaced_by f g)) }
{
    let around = is_around(alloc, place, stop)?;
    if around {
        return Ok(halts(alloc));
    }
    replaces(alloc, old, new)
}

// Old nodes give way to new ones.
#[tactic(auto, using(crate::proofs::TopsSeen::tops))]
fn replaces(
    alloc: Global,
    old: Result<List<u64>, OutOfMemory>,
    new: Result<List<DocNode>, OutOfMemory>,
) -> Result<Edited, OutOfMemory>
    ensures { (f g : Forest) → IfOk old (λ tops. tops
        ≡ tops_of f) → IfOk new (λ row. forest_of row ≡ g) →
        IfOk result (λ written. edited_of written ≡ caused.writes (caused.replaced_by f g)) }
{
    let (old, new) = both(old, new)?;
    Ok(writes(replaced_by(alloc, old.as_slice(), new)?))
}

/// The first old node is replaced by the new ones, the others are removed.
#[tactic(auto, using(crate::proofs::Writings::writings))]
pub fn replaced_by(
    alloc: Global,
    old: &[u64],
    new: List<DocNode>,
) -> Result<List<Edit>, OutOfMemory>
    ensures { IfOk result (λ edits. map edit_of edits ≡ replaced old.now (forest_of new)) }
{
    let mut edits = List::new(alloc);
    if let Some(first) = old.first() {
        edits.push(Edit::ReplaceNodeWith {
            id: ElementId(*first),
            nodes: new,
        })?;
        edits.append(removals(alloc, &old[1..])?)?;
    }
    Ok(edits)
}

/// Each of these nodes is removed.
#[tactic(auto, using(crate::proofs::Writings::writings))]
pub fn removals(alloc: Global, tops: &[u64]) -> Result<List<Edit>, OutOfMemory>
    ensures { IfOk result (λ edits. map edit_of edits ≡ removed tops.now) }
{
    let mut edits = List::new(alloc);
    for number in tops {
        edits.push(Edit::RemoveNode {
            id: ElementId(*number),
        })?;
    }
    Ok(edits)
}
