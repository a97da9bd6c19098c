//! One step of a suspense boundary's run.
ghost use Rattle.std.specs.Prelude.{◌≡◌};
ghost use Rattle.rt_model.specs.Boundary as model;
ghost use Rattle.rt_model.specs.Laws.{Tests};
ghost use Rattle.rt_model.specs.OneLog.{types};
ghost use Rattle.rt_model.specs.World.{Application};
ghost use Rattle.rt_model.specs.State as steps;
ghost use Rattle.run_work.specs.Items.{row_step_of, work_of};
ghost use Rattle.rt_scopes.specs.Outcomes.{Comes};

use crate::fallbacks::call_fallback;
use crate::parts::{children_of, drop_items, made_items};
use author_calls::{App, Calls};
use rt_scopes::{Scopes, drop_fallback};
use rt_values::{List, ScopeId};
use run_places::SideName;
use run_state::{Stop, is_held};
use run_work::{Item, RowStep};

/// Does one step of a boundary's run. The work that comes before the rest of the run; none of a
/// boundary that is gone.
pub fn boundary_step<A: App>(
    scopes: &mut Scopes<A>,
    app: &A,
    calls: &mut Calls,
    boundary: u64,
    step: RowStep,
) -> Result<List<Item<A>>, Stop>
    ensures done { Comes (λ w.
        model.boundary_step (A.meaning app.now) w boundary (row_step_of step))
        scopes.old.state calls.old scopes.new.state calls.new work_of result }
{
    match step {
        RowStep::PatchChildren => patch_children(scopes, boundary),
        RowStep::MadeChildren => made_children(scopes, boundary),
        RowStep::RunFallback => run_fallback(scopes, app, calls, boundary),
        RowStep::ShowFallback => show_fallback(scopes, boundary),
        RowStep::ShowChildren => show_children(scopes, boundary),
        RowStep::DropFallback => leave_fallback(scopes, boundary),
        RowStep::Resolve => resolve(scopes, app, calls, boundary),
    }
}

/// The tree of the children is their new output.
fn patch_children<A: App>(scopes: &mut Scopes<A>, boundary: u64) -> Result<List<Item<A>>, Stop>
    ensures done { (app : Application
        (types A.Component A.Props A.Value A.Handler A.TaskState A.Effect A.Payload))
        → Tests A.Component app.same_component → (count : _) → Comes (λ w.
        model.boundary_step app w boundary steps.PatchChildren)
        scopes.old.state count scopes.new.state count work_of result }
{
    let Some(found) = scopes.state.scope(boundary) else {
        return Ok(List::new(scopes.alloc));
    };
    let tree = children_of(scopes.alloc, &found.rest.component)?;
    scopes.patch(ScopeId(boundary), SideName::Children, tree)
}

/// What follows the children of a boundary that is made.
fn made_children<A: App>(scopes: &mut Scopes<A>, boundary: u64) -> Result<List<Item<A>>, Stop>
    ensures done { (app : _) (count : _) → Comes (λ w.
        model.boundary_step app w boundary steps.MadeChildren)
        scopes.old.state count scopes.new.state count work_of result }
{
    let Some(found) = scopes.state.scope(boundary) else {
        return Ok(List::new(scopes.alloc));
    };
    let held = is_held(found);
    Ok(made_items(scopes.alloc, boundary, held)?)
}

/// The fallback runs.
fn run_fallback<A: App>(
    scopes: &mut Scopes<A>,
    app: &A,
    calls: &mut Calls,
    boundary: u64,
) -> Result<List<Item<A>>, Stop>
    ensures done { Comes (λ w.
        model.boundary_step (A.meaning app.now) w boundary steps.RunFallback)
        scopes.old.state calls.old scopes.new.state calls.new work_of result }
{
    let Some(found) = scopes.state.scope(boundary) else {
        return Ok(List::new(scopes.alloc));
    };
    let component = found.rest.component.copy(scopes.alloc)?;
    call_fallback(scopes, app, calls, boundary, &component)
}

/// The fallback shows.
fn show_fallback<A: App>(scopes: &mut Scopes<A>, boundary: u64) -> Result<List<Item<A>>, Stop>
    ensures done { (app : _) (count : _) → Comes (λ w.
        model.boundary_step app w boundary steps.ShowFallback)
        scopes.old.state count scopes.new.state count work_of result }
{
    if !scopes.state.is_live(boundary) {
        return Ok(List::new(scopes.alloc));
    }
    scopes.state.show_fallback(boundary)?;
    Ok(List::new(scopes.alloc))
}

/// The children show.
fn show_children<A: App>(scopes: &mut Scopes<A>, boundary: u64) -> Result<List<Item<A>>, Stop>
    ensures done { (app : _) (count : _) → Comes (λ w.
        model.boundary_step app w boundary steps.ShowChildren)
        scopes.old.state count scopes.new.state count work_of result }
{
    if !scopes.state.is_live(boundary) {
        return Ok(List::new(scopes.alloc));
    }
    scopes.state.show_children(scopes.alloc, boundary)?;
    Ok(List::new(scopes.alloc))
}

/// The fallback's output goes, and the scopes on it are dropped.
fn leave_fallback<A: App>(scopes: &mut Scopes<A>, boundary: u64) -> Result<List<Item<A>>, Stop>
    ensures done { (app : _) (count : _) → Comes (λ w.
        model.boundary_step app w boundary steps.DropFallback)
        scopes.old.state count scopes.new.state count work_of result }
{
    if !scopes.state.is_live(boundary) {
        return Ok(List::new(scopes.alloc));
    }
    let alloc = scopes.alloc;
    let children = drop_fallback(alloc, &mut scopes.state, boundary)?;
    let items = drop_items(alloc, boundary, SideName::Fallback, children.as_slice())?;
    Ok(items)
}

/// The callbacks that waited for the children are called.
fn resolve<A: App>(
    scopes: &mut Scopes<A>,
    app: &A,
    calls: &mut Calls,
    boundary: u64,
) -> Result<List<Item<A>>, Stop>
    ensures done { Comes (λ w.
        model.boundary_step (A.meaning app.now) w boundary steps.Resolve)
        scopes.old.state calls.old scopes.new.state calls.new work_of result }
{
    if !scopes.state.is_live(boundary) {
        return Ok(List::new(scopes.alloc));
    }
    let callbacks = scopes.state.resolve(scopes.alloc, boundary)?;
    scopes.call_back(app, calls, callbacks.as_slice())?;
    Ok(List::new(scopes.alloc))
}
