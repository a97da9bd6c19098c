//! The run of a suspense boundary's fallback.
ghost use Rattle.std.specs.Prelude.{◌≡◌};
ghost use Rattle.rt_model.specs.Laws.{Tests};
ghost use Rattle.rt_model.specs.OneLog.{types};
ghost use Rattle.rt_model.specs.World.{Application};
ghost use Rattle.rt_model.specs.State.{FallbackSide, onward};
ghost use Rattle.rt_model.specs.Run as run;
ghost use Rattle.rt_model.specs.Run.{after_hooks, start_agenda};
ghost use Rattle.rt_model.specs.Boundary as model;
ghost use Rattle.rt_model.specs.Boundary.{counted_render, tree_or_placeholder};
ghost use Rattle.tree_mirror.specs.Sealed.{component_of, element_of};
ghost use Rattle.run_work.specs.Items.{work_of};
ghost use Rattle.rt_scopes.specs.Outcomes.{Comes, no_work};

use crate::parts::counts_render;
use author_calls::{App, Calls};
use rt_scopes::{Scopes, placeholder_or};
use rt_values::{List, ScopeId};
use run_places::SideName;
use run_state::Stop;
use run_work::Item;
use tree_nodes::{Element, VComponent};

/// Runs the fallback. Its answer is neither thrown nor held.
pub(crate) fn call_fallback<A: App>(
    scopes: &mut Scopes<A>,
    app: &A,
    calls: &mut Calls,
    boundary: u64,
    component: &VComponent<A>,
) -> Result<List<Item<A>>, Stop>
    ensures called { Comes (λ w. run.call_body (A.meaning app.now) w boundary
        (component_of component.now) (λ v answer. model.fallback_answered
        (A.meaning app.now) v boundary (component_of component.now) answer))
        scopes.old.state calls.old scopes.new.state calls.new work_of result }
{
    let answer = scopes.call_component(app, calls, ScopeId(boundary), component)?;
    answer_fallback(scopes, app, calls, boundary, component, answer)
}

/// What follows the fallback's answer.
fn answer_fallback<A: App>(
    scopes: &mut Scopes<A>,
    app: &A,
    calls: &mut Calls,
    boundary: u64,
    component: &VComponent<A>,
    answer: Element<A>,
) -> Result<List<Item<A>>, Stop>
    ensures answered { Comes (λ w. model.fallback_answered (A.meaning app.now) w boundary
        (component_of component.now) (element_of answer))
        scopes.old.state calls.old scopes.new.state calls.new work_of result }
{
    let counts = counts_render(component, &answer);
    match count_and_hook(scopes, app, calls, boundary, counts) {
        Ok(()) => patch_fallback(scopes, boundary, answer),
        Err(stop) => Err(stop),
    }
}

/// The render count rises where this says so, and the after-render hooks are called.
fn count_and_hook<A: App>(
    scopes: &mut Scopes<A>,
    app: &A,
    calls: &mut Calls,
    boundary: u64,
    counts: bool,
) -> Result<(), Stop>
    ensures counted { Comes (λ w. onward
        (counted_render (A.meaning app.now) w boundary counts)
        (λ v. after_hooks (A.meaning app.now) v boundary))
        scopes.old.state calls.old scopes.new.state calls.new no_work result }
{
    count(scopes, boundary, counts)?;
    scopes.call_hooks(app, calls, ScopeId(boundary), true)
}

/// The render count rises where this says so.
fn count<A: App>(scopes: &mut Scopes<A>, boundary: u64, counts: bool) -> Result<(), Stop>
    ensures counted { (app : _) (count : _) → Comes (λ w. counted_render app w boundary counts)
        scopes.old.state count scopes.new.state count no_work result }
{
    if counts {
        scopes.state.raised(boundary)
    } else {
        Ok(())
    }
}

/// The fallback's tree, or one placeholder, is its new output.
fn patch_fallback<A: App>(
    scopes: &mut Scopes<A>,
    boundary: u64,
    answer: Element<A>,
) -> Result<List<Item<A>>, Stop>
    ensures patched { (app : Application
        (types A.Component A.Props A.Value A.Handler A.TaskState A.Effect A.Payload))
        → Tests A.Component app.same_component → (count : _) →
        Comes (λ w. start_agenda app w boundary
        FallbackSide (tree_or_placeholder (element_of answer)))
        scopes.old.state count scopes.new.state count work_of result }
{
    let tree = placeholder_or(scopes.alloc, answer)?;
    scopes.patch(ScopeId(boundary), SideName::Fallback, tree)
}
