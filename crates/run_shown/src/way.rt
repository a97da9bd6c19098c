//! The way from a scope whose work was refused up to the root.

ghost use Rattle.std.specs.Prelude.{◌≡◌, ◌++◌, ◌∷◌, [], Some, length, map, is_some, option_map, IfOk, OnOk};
ghost use Rattle.rt_model.specs.Lists.{at};
ghost use Rattle.rt_model.specs.Caused as caused;
ghost use Rattle.run_places.specs.Places.{place_of, seated, side_name_of, side_of};
ghost use Rattle.run_places.specs.Trails.{place_on, steps_of};
ghost use Rattle.run_shown.specs.Ways.{look_way, look_way_up, place_found, place_over, stop_of, stop_over, way_above, way_of};

use crate::look::{Look, is_side};
use rt_values::{List, OutOfMemory, Part};
use run_places::{Place, Side, SideName, Step, Trail, stands_after, stands_at, steps_to};
use run_work::Item;
use std::alloc::Global;
use tree_nodes::Parts;

/// A scope on the way, with the side and the place that was served there. Without a place all
/// places of the side were passed.
#[derive(Drop)]
pub(crate) struct Stop {
    pub scope: u64,
    pub side: Option<SideName>,
    pub place: Option<Place>,
}

/// The way to an item that was refused.
pub(crate) fn way_to<P: Parts>(
    alloc: Global,
    look: &Look<'_, P>,
    refused: &Item<P>,
) -> Result<List<Stop>, OutOfMemory>
    ensures { IfOk result (λ way. way_of way ≡ look_way look.now refused.now) }
{
    match refused {
        Item::Draw {
            scope,
            side,
            place,
            ..
        } => way_from(alloc, look, *scope, *side, place),
        Item::Make {
            scope,
            side,
            place,
            ..
        } => way_from(alloc, look, *scope, *side, place),
        Item::Feed {
            scope,
            side,
            place,
            ..
        } => way_from(alloc, look, *scope, *side, place),
        Item::Row { boundary, .. } => way_up(alloc, look, *boundary, None, None),
        Item::Drop { scope, side, .. } => way_up(alloc, look, *scope, Some(*side), None),
    }
}

// From a place on a side of a scope up to the root.
fn way_from<P: Parts>(
    alloc: Global,
    look: &Look<'_, P>,
    scope: u64,
    side: SideName,
    place: &Place,
) -> Result<List<Stop>, OutOfMemory>
    ensures { IfOk result (λ way.
        way_of way
        ≡ look_way_up look.now scope (Some (side_name_of side)) (Some (place_of place.now))) }
{
    way_up(alloc, look, scope, Some(side), Some(place.copy(alloc)?))
}

// From a scope up to the root, at most as many steps as there are scopes.
#[tactic(auto, using(crate::proofs::Ways::ways))]
fn way_up<P: Parts>(
    alloc: Global,
    look: &Look<'_, P>,
    scope: u64,
    side: Option<SideName>,
    place: Option<Place>,
) -> Result<List<Stop>, OutOfMemory>
    ensures { IfOk result (λ way.
        way_of way
        ≡ look_way_up look.now scope (option_map side_name_of side) (option_map place_of place)) }
{
    let mut way = List::new(alloc);
    way.push(Stop { scope, side, place })?;
    add_above(alloc, look, look.scopes(), scope, &mut way)?;
    Ok(way)
}

// The scopes above one, at most so many steps up.
#[tactic(auto, using(crate::proofs::Ways::ways))]
fn add_above<P: Parts>(
    alloc: Global,
    look: &Look<'_, P>,
    steps: u64,
    child: u64,
    way: &mut List<Stop>,
) -> Result<(), OutOfMemory>
    ensures { OnOk result (way_of way.new ≡ way_of way.old ++ way_above look.now steps child) }
{
    if steps == 0 {
        return Ok(());
    }
    match look.parent(child) {
        Some(parent) => {
            way.push(stop_above(alloc, look, parent, child)?)?;
            add_above(alloc, look, steps - 1, parent, way)
        }
        None => Ok(()),
    }
}

// The parent on the way, with the place where its child stands.
fn stop_above<P: Parts>(
    alloc: Global,
    look: &Look<'_, P>,
    parent: u64,
    child: u64,
) -> Result<Stop, OutOfMemory>
    ensures { IfOk result (λ stop. stop_of stop ≡ stop_over look.now parent child) }
{
    let side = look.below(child);
    let place = place_above(alloc, look, parent, side, child)?;
    Ok(Stop {
        scope: parent,
        side,
        place,
    })
}

// Where a child stands on the side of its parent that it was made on.
fn place_above<P: Parts>(
    alloc: Global,
    look: &Look<'_, P>,
    parent: u64,
    side: Option<SideName>,
    child: u64,
) -> Result<Option<Place>, OutOfMemory>
    ensures { IfOk result (λ place. option_map place_of place
        ≡ place_over look.now parent side child) }
{
    match side {
        Some(name) => match look.side(parent, name) {
            Some(side) => place_of_child(alloc, side, child),
            None => Ok(None),
        },
        None => Ok(None),
    }
}

// The place of a child scope.
fn place_of_child<P: Parts>(
    alloc: Global,
    side: &Side<P>,
    scope: u64,
) -> Result<Option<Place>, OutOfMemory>
    ensures { IfOk result (λ place. option_map place_of place
        ≡ caused.place_of_child (side_of side.now).children scope) }
{
    for pair in side.children.as_slice() {
        if let Some(place) = place_under(side, pair.0, pair.1, scope) {
            return Ok(Some(place.copy(alloc)?));
        }
    }
    Ok(None)
}

// The place under an index of a component, where its child is this scope.
fn place_under<P: Parts>(side: &Side<P>, index: u64, child: u64, scope: u64) -> Option<&Place>
    ensures { place_found result ≡ caused.place_of_child
        (seated (map place_of side.now.seats) ((index, child) ∷ [])) scope }
{
    if child == scope {
        side.seats.place_of(index)
    } else {
        None
    }
}

/// Whether a scope is on the way.
pub(crate) fn is_on_way(way: &[Stop], scope: u64) -> bool
    ensures { result ≡ is_some (at (way_of way.now) scope) }
{
    for stop in way {
        if stop.scope == scope {
            return true;
        }
    }
    false
}

/// The place on a side of a scope that was refused, or that leads to what was.
#[tactic(auto, using(crate::proofs::Ways::ways))]
pub(crate) fn stop_on(way: &[Stop], scope: u64, side: SideName) -> Option<&Place>
    ensures { place_found result ≡ caused.stop_on (side_name_of side) (at (way_of way.now) scope) }
{
    for stop in way {
        if stop.scope == scope {
            return stop_place(stop, side);
        }
    }
    None
}

// The place of a stop, where it is on this side.
#[tactic(auto, using(crate::proofs::Ways::ways))]
fn stop_place(stop: &Stop, side: SideName) -> Option<&Place>
    ensures { place_found result ≡ caused.stop_on (side_name_of side) (Some (stop_of stop.now).1) }
{
    if is_side(stop.side, side) {
        stop.place.as_ref()
    } else {
        None
    }
}

/// Whether the refused place, if there is one, is this one.
pub(crate) fn is_place(place: &Trail<'_>, stop: Option<&Place>) -> bool
    ensures { result ≡ caused.is_place (place_on place.now) (place_found stop.entry) }
{
    match stop {
        Some(stop) => stands_at(place, stop),
        None => false,
    }
}

/// Whether the refused place, if there is one, is this one or within it.
pub(crate) fn is_around(
    alloc: Global,
    place: &Trail<'_>,
    stop: Option<&Place>,
) -> Result<bool, OutOfMemory>
    ensures { IfOk result (λ answer. answer
        ≡ caused.is_around (place_on place.now) (place_found stop.entry)) }
{
    match stop {
        Some(stop) => {
            let count = steps_to(place)?;
            let steps = stop.steps(alloc)?;
            Ok(is_front(place, count, steps.as_slice()))
        }
        None => Ok(false),
    }
}

// Whether the place with so many steps is the other one or stands around it.
#[tactic(auto, using(crate::proofs::Ways::ways))]
fn is_front(place: &Trail<'_>, count: usize, other: &[Step]) -> bool
    requires { count ≡ length (steps_of place.now) }
    ensures { result ≡ caused.is_front (place_on place.now) (place_of other.now) }
{
    if count > other.len() {
        return false;
    }
    stands_after(place, &other[..count])
}
