//! The child scopes of scopes, in tree order.
ghost use Rattle.std.specs.Prelude.{◌≡◌, ◌++◌, [], None, IfOk, OnOk};
ghost use Rattle.rt_model.specs.Lists.{at};
ghost use Rattle.rt_model.specs.State.{change, empty_side};
ghost use Rattle.rt_model.specs.Boundary.{side_scopes as scopes_on, live_child};
ghost use Rattle.rt_model.specs.Removal.{children_below as all_below};
ghost use Rattle.rt_model.specs.Replay.{fed_child as child_fed};
ghost use Rattle.run_places.specs.Places.{place_of, side_name_of, side_of};
ghost use Rattle.run_state.specs.Mirror.{state_of};
ghost use Rattle.rt_scopes.specs.Sides.{child_here, fallback_scopes_in};

use rt_values::{List, OutOfMemory};
use run_places::{Place, Side, SideName, Spot, spots};
use run_state::{State, side_of};
use std::alloc::Global;
use tree_nodes::Parts;

/// The live child scopes of a side, in tree order. The tree is gone through only where the side has
/// child scopes.
pub fn side_scopes<P: Parts>(
    alloc: Global,
    state: &State<P>,
    side: &Side<P>,
) -> Result<List<u64>, OutOfMemory>
    ensures { IfOk result (λ scopes. (g : _) →
        scopes ≡ scopes_on (state_of g state.now) (side_of side.now)) }
{
    let mut scopes = List::new(alloc);
    if side.children.as_slice().is_empty() {
        return Ok(scopes);
    }
    let Some(tree) = &side.output else {
        return Ok(scopes);
    };
    let spots = spots(alloc, tree)?;
    for spot in spots.as_slice() {
        add_child(state, side, spot, &mut scopes)?;
    }
    Ok(scopes)
}

/// Puts the child scope at a spot after these, where one is live there.
fn add_child<P: Parts>(
    state: &State<P>,
    side: &Side<P>,
    spot: &Spot<P>,
    scopes: &mut List<u64>,
) -> Result<(), OutOfMemory>
    ensures { OnOk result ((g : _) → scopes.new
        ≡ scopes.old ++ child_here (state_of g state.now) side.now spot.now) }
{
    match spot {
        Spot::Node { .. } => Ok(()),
        Spot::Component { place, .. } => { add_live(state, side.child_at(place), scopes) }
    }
}

/// Puts a scope after these, where there is one and it is live.
fn add_live<P: Parts>(
    state: &State<P>,
    scope: Option<u64>,
    scopes: &mut List<u64>,
) -> Result<(), OutOfMemory>
    ensures { OnOk result ((g : _) →
        scopes.new ≡ scopes.old ++ live_child (state_of g state.now) scope) }
{
    match scope {
        Some(scope) => {
            if state.is_live(scope) {
                scopes.push(scope)
            } else {
                Ok(())
            }
        }
        None => Ok(()),
    }
}

/// The children of a scope, the fallback's before the others.
pub fn children_below<P: Parts>(
    alloc: Global,
    state: &State<P>,
    scope: u64,
) -> Result<List<u64>, OutOfMemory>
    ensures { IfOk result (λ scopes. (g : _) → scopes
        ≡ all_below (state_of g state.now) (at (state_of g state.now).scopes scope)) }
{
    let Some(found) = state.scope(scope) else {
        return Ok(List::new(alloc));
    };
    let mut scopes = side_scopes(alloc, state, &found.rest.fallback_side)?;
    let children = side_scopes(alloc, state, &found.rest.children_side)?;
    let main = side_scopes(alloc, state, &found.rest.main_side)?;
    scopes.append(children)?;
    scopes.append(main)?;
    Ok(scopes)
}

/// The child scope at a place of a scope's side.
pub fn fed_child<P: Parts>(
    state: &State<P>,
    scope: u64,
    side: SideName,
    place: &Place,
) -> Option<u64>
    ensures { (g : _) → result
        ≡ child_fed (state_of g state.now) scope (side_name_of side) (place_of place.now) }
{
    match state.scope(scope) {
        Some(found) => side_of(found, side).child_at(place),
        None => None,
    }
}

/// Drops the fallback's output of a boundary, and answers the scopes that stood on it, in tree
/// order.
pub fn drop_fallback<P: Parts>(
    alloc: Global,
    state: &mut State<P>,
    boundary: u64,
) -> Result<List<u64>, OutOfMemory>
    ensures dropped { OnOk result ((g : _) → state_of g state.new
        ≡ change (state_of g state.old) boundary (λ x. record x { fallback_side = empty_side })) }
    ensures scopes { IfOk result (λ scopes. (g : _) → scopes
        ≡ fallback_scopes_in (state_of g state.old) boundary) }
{
    let scopes = fallback_scopes(alloc, state, boundary)?;
    clear_fallback(alloc, state, boundary);
    Ok(scopes)
}

/// The scopes on the fallback's side of a live boundary, in tree order.
fn fallback_scopes<P: Parts>(
    alloc: Global,
    state: &State<P>,
    boundary: u64,
) -> Result<List<u64>, OutOfMemory>
    ensures { IfOk result (λ scopes. (g : _) → scopes
        ≡ fallback_scopes_in (state_of g state.now) boundary) }
{
    match state.scope(boundary) {
        Some(found) => side_scopes(alloc, state, &found.rest.fallback_side),
        None => Ok(List::new(alloc)),
    }
}

/// Leaves a live boundary without a fallback's output.
fn clear_fallback<P: Parts>(alloc: Global, state: &mut State<P>, boundary: u64)
    ensures { (g : _) → state_of g state.new
        ≡ change (state_of g state.old) boundary (λ x. record x { fallback_side = empty_side }) }
{
    state.put_side(boundary, SideName::Fallback, Side::empty(alloc));
}
