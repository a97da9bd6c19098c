//! The items of open work, each served in its turn.
ghost use Rattle.std.specs.Prelude.{◌≡◌, ◌<◌, ◌+◌, ◌∷◌, [], Some, true, option_map, IfOk, IfSome, OnOk};
ghost use Rattle.rt_model.specs.Causes as causes;
ghost use Rattle.rt_model.specs.State as model;
ghost use Rattle.rt_model.specs.Replay as replay;
ghost use Rattle.rt_model.specs.Removal as removal;
ghost use Rattle.rt_model.specs.Run.{run};
ghost use Rattle.tree_mirror.specs.Sealed.{component_of};
ghost use Rattle.run_places.specs.Places.{kind_of, place_of, side_name_of};
ghost use Rattle.run_reports.specs.Seen.{limits_of};
ghost use Rattle.rt_scopes.specs.Outcomes.{StateComes};
ghost use Rattle.run_state.specs.Mirror.{state_of};
ghost use Rattle.law_moves.specs.Turn.{again, turn_of};
ghost use Rattle.run_work.specs.Items.{item_of, work_of};
ghost use Rattle.run_turns.specs.Counting.{CountsChange};
ghost use Rattle.run_turns.specs.Fed.{fed_entries, fed_outcome};
ghost use Rattle.run_turns.specs.Notes.{NotedBy};

use crate::course::Course;
use author_calls::{App, Calls};
use rt_scopes::Scopes;
use rt_values::{List, OutOfMemory, Part, ScopeId, both};
use run_places::{Kind, Place, SideName};
use run_reports::{Entry, Limits};
use run_state::{State, Stop};
use run_work::Item;
use std::alloc::Global;
use tree_nodes::{Parts, VComponent};

/// A sum. One that no `u64` counts is answered as want of memory.
pub fn sum(count: u64, more: u64) -> Result<u64, OutOfMemory>
    ensures { IfOk result (λ all. all ≡ count + more) }
{
    match count.checked_add(more) {
        Some(all) => Ok(all),
        None => Err(OutOfMemory),
    }
}

/// The height of the scope that an item makes, where it is above the limit.
pub fn too_deep<P: Parts>(
    state: &State<P>,
    item: &Item<P>,
    limits: Limits,
) -> Result<Option<u64>, OutOfMemory>
    ensures above { IfOk result (λ deep. IfSome deep (λ height. limits.height < height)) }
    ensures refused { IfOk result (λ deep. (g : _) →
        causes.depth_refused (limits_of limits) (causes.height_at (state_of g state.now) (item_of item.now ∷ []))
        ≡ option_map model.TooDeep deep) }
{
    match item {
        Item::Make { scope, .. } => above(state.height_of(*scope), limits),
        _ => Ok(None),
    }
}

/// One more than a height, where that is above the limit.
fn above(height: u64, limits: Limits) -> Result<Option<u64>, OutOfMemory>
    ensures above { IfOk result (λ deep. IfSome deep (λ height. limits.height < height)) }
    ensures refused { IfOk result (λ deep.
        causes.depth_refused (limits_of limits) (Some (height + 1)) ≡ option_map model.TooDeep deep) }
{
    let height = sum(height, 1)?;
    if u64::from(limits.height) < height {
        Ok(Some(height))
    } else {
        Ok(None)
    }
}

/// Draws a number for a place.
pub fn draw<A: App>(
    scopes: &mut Scopes<A>,
    scope: u64,
    side: SideName,
    place: &Place,
    kind: Kind,
) -> Result<List<Item<A>>, Stop>
    ensures drawn { StateComes (λ w.
        replay.draw_number w scope (side_name_of side) (place_of place.now) (kind_of kind))
        scopes.old.state scopes.new.state work_of result }
{
    scopes
        .state
        .draw_number(scopes.alloc, scope, side, place, kind)?;
    Ok(List::new(scopes.alloc))
}

/// Hands the child that is fed a component.
pub fn feed<A: App>(
    scopes: &mut Scopes<A>,
    app: &A,
    calls: &mut Calls,
    course: &mut Course,
    fed: Option<(u64, bool)>,
    component: &VComponent<A>,
) -> Result<List<Item<A>>, Stop>
    ensures fed { StateComes (λ w.
        fed_outcome (A.meaning app.now) w (component_of component.now) fed)
        scopes.old.state scopes.new.state work_of result }
    ensures noted { NotedBy course.old.entries course.new.entries (fed_entries fed) result }
    ensures counted { OnOk result (CountsChange (λ w.
        fed_outcome (A.meaning app.now) w (component_of component.now) fed)
        scopes.old.state calls.old calls.new) }
{
    match fed {
        Some(fed) => hand(scopes, app, calls, course, fed.0, fed.1, component),
        None => Ok(List::new(scopes.alloc)),
    }
}

/// Hands a scope a component. It keeps its output, or it is run.
fn hand<A: App>(
    scopes: &mut Scopes<A>,
    app: &A,
    calls: &mut Calls,
    course: &mut Course,
    child: u64,
    kept: bool,
    component: &VComponent<A>,
) -> Result<List<Item<A>>, Stop>
    ensures handed { StateComes (λ w.
        fed_outcome (A.meaning app.now) w (component_of component.now) (Some (child, kept)))
        scopes.old.state scopes.new.state work_of result }
    ensures noted { NotedBy course.old.entries course.new.entries
        (fed_entries (Some (child, kept))) result }
    ensures counted { OnOk result (CountsChange (λ w.
        fed_outcome (A.meaning app.now) w (component_of component.now) (Some (child, kept)))
        scopes.old.state calls.old calls.new) }
{
    let component = component.copy(scopes.alloc)?;
    if kept {
        course.note(Entry::Kept(ScopeId(child)))?;
        put(scopes, child, component)
    } else {
        course.note(Entry::Fed(ScopeId(child)))?;
        put_and_run(scopes, app, calls, child, component)
    }
}

/// A scope has another component, and keeps its output.
fn put<A: App>(
    scopes: &mut Scopes<A>,
    child: u64,
    component: VComponent<A>,
) -> Result<List<Item<A>>, Stop>
    ensures done { (app : _) → StateComes (λ w. model.Done
        (replay.with_props app w child (component_of component)) [])
        scopes.old.state scopes.new.state work_of result }
{
    scopes.state.put_component(child, component)?;
    Ok(List::new(scopes.alloc))
}

/// A scope has another component, and is run.
fn put_and_run<A: App>(
    scopes: &mut Scopes<A>,
    app: &A,
    calls: &mut Calls,
    child: u64,
    component: VComponent<A>,
) -> Result<List<Item<A>>, Stop>
    ensures done { StateComes (λ w. run (A.meaning app.now)
        (replay.with_props (A.meaning app.now) w child (component_of component)) child)
        scopes.old.state scopes.new.state work_of result }
    ensures counted { OnOk result (CountsChange (λ w. run (A.meaning app.now)
        (replay.with_props (A.meaning app.now) w child (component_of component)) child)
        scopes.old.state calls.old calls.new) }
{
    scopes.state.put_component(child, component)?;
    scopes.run(app, calls, ScopeId(child))
}

/// Makes a scope for the component at a place, and runs it.
pub fn make<A: App>(
    scopes: &mut Scopes<A>,
    app: &A,
    calls: &mut Calls,
    course: &mut Course,
    scope: u64,
    side: SideName,
    place: &Place,
    component: &VComponent<A>,
) -> Result<List<Item<A>>, Stop>
    ensures made { StateComes (λ w. replay.made (A.meaning app.now) w scope
        (side_name_of side) (place_of place.now) (component_of component.now))
        scopes.old.state scopes.new.state work_of result }
    ensures noted { (g : _) → NotedBy course.old.entries course.new.entries
        (replay.Made (state_of g scopes.old.state).next_scope ∷ []) result }
    ensures counted { OnOk result (CountsChange (λ w. replay.made (A.meaning app.now) w scope
        (side_name_of side) (place_of place.now) (component_of component.now))
        scopes.old.state calls.old calls.new) }
{
    course.note(Entry::Made(ScopeId(scopes.state.next_scope)))?;
    let alloc = scopes.alloc;
    let (place, component) = both(place.copy(alloc), component.copy(alloc))?;
    if scopes.state.is_live(scope) {
        make_below(scopes, app, calls, scope, side, place, component)
    } else {
        Ok(List::new(alloc))
    }
}

/// Makes a scope below a live one, and runs it.
fn make_below<A: App>(
    scopes: &mut Scopes<A>,
    app: &A,
    calls: &mut Calls,
    scope: u64,
    side: SideName,
    place: Place,
    component: VComponent<A>,
) -> Result<List<Item<A>>, Stop>
    ensures made { ((g : _) → model.is_live (state_of g scopes.old.state) scope ≡ true) →
        StateComes (λ w. replay.made (A.meaning app.now) w scope
        (side_name_of side) (place_of place) (component_of component))
        scopes.old.state scopes.new.state work_of result }
    ensures counted { OnOk result (CountsChange (λ w. replay.made (A.meaning app.now) w scope
        (side_name_of side) (place_of place) (component_of component))
        scopes.old.state calls.old calls.new) }
{
    let alloc = scopes.alloc;
    match scopes
        .state
        .with_new_scope(alloc, scope, side, place, component)?
    {
        Some(child) => scopes.run(app, calls, ScopeId(child)),
        None => Ok(List::new(alloc)),
    }
}

/// Removes the first scope of those that go with a child, which is this one. The item comes again until
/// the child itself went.
pub fn take<A: App>(
    scopes: &mut Scopes<A>,
    app: &A,
    calls: &mut Calls,
    course: &mut Course,
    leaf: u64,
    child: u64,
    scope: u64,
    side: SideName,
) -> Result<List<Item<A>>, Stop>
    requires leaf { (g : _) → leaf ≡ removal.next_removed (state_of g scopes.old.state) child }
    ensures turned { StateComes (λ w. turn_of (A.meaning app.now) w
        (model.Drop child scope (side_name_of side)))
        scopes.old.state scopes.new.state work_of result }
    ensures noted { (g : _) → NotedBy course.old.entries course.new.entries
        (replay.Removed (removal.next_removed (state_of g scopes.old.state) child) ∷ []) result }
    ensures counted { OnOk result (CountsChange (λ w. turn_of (A.meaning app.now) w
        (model.Drop child scope (side_name_of side)))
        scopes.old.state calls.old calls.new) }
{
    let alloc = scopes.alloc;
    course.note(Entry::Removed(ScopeId(leaf)))?;
    scopes.remove_leaf(app, calls, ScopeId(leaf), true)?;
    Ok(drop_again(alloc, leaf == child, child, scope, side)?)
}

/// The drop that comes again, unless its own scope went.
fn drop_again<P: Parts>(
    alloc: Global,
    went: bool,
    child: u64,
    scope: u64,
    side: SideName,
) -> Result<List<Item<P>>, OutOfMemory>
    ensures { IfOk result (λ items. work_of items
        ≡ again went (model.Drop child scope (side_name_of side))) }
{
    let mut items = List::new(alloc);
    if !went {
        items.push(Item::Drop { child, scope, side })?;
    }
    Ok(items)
}
