//! One run of a scope, up to its agenda.
ghost use Rattle.std.specs.Prelude.{◌≡◌, map, IfOk, option_map};
ghost use Rattle.rt_model.specs.Run as run;
ghost use Rattle.rt_model.specs.Run.{after_hooks, boundary_run, call_body};
ghost use Rattle.rt_model.specs.State.{Done, onward};
ghost use Rattle.tree_mirror.specs.Sealed.{component_of};
ghost use Rattle.run_places.specs.Places.{side_name_of};
ghost use Rattle.run_work.specs.Items.{row_step_of, work_of};
ghost use Rattle.rt_scopes.specs.Outcomes.{Comes};
ghost use Rattle.rt_scopes.specs.Runs.{body_run, steps_run};

use crate::scopes::Scopes;
use author_calls::{App, Calls};
use rt_values::{List, OutOfMemory, ScopeId};
use run_places::SideName;
use run_state::{Stop, is_held, is_suspense_boundary};
use run_work::{Item, RowStep};
use std::alloc::Global;
use tree_nodes::{Parts, VComponent};

/// The steps of a suspense boundary's run, by the side that shows and by whether it is held at its
/// start.
fn row_of(shows: Option<SideName>, held: bool) -> &'static [RowStep]
    ensures { map row_step_of result.now ≡ run.row_of (option_map side_name_of shows) held }
{
    match (shows, held) {
        (None, _) => &[RowStep::PatchChildren, RowStep::MadeChildren],
        (Some(SideName::Fallback), true) => &[RowStep::RunFallback, RowStep::PatchChildren],
        (Some(SideName::Fallback), false) => &[
            RowStep::PatchChildren,
            RowStep::ShowChildren,
            RowStep::DropFallback,
            RowStep::Resolve,
        ],
        (Some(SideName::Children), true) => &[
            RowStep::RunFallback,
            RowStep::ShowFallback,
            RowStep::PatchChildren,
        ],
        (Some(SideName::Children), false) => &[RowStep::PatchChildren],
        (Some(SideName::Main), _) => &[],
    }
}

/// Whether a run calls the fallback. A boundary that is made knows it only later.
fn runs_fallback(steps: &[RowStep]) -> bool
    ensures { result ≡ run.runs_fallback (map row_step_of steps.now) }
{
    for step in steps {
        if *step == RowStep::RunFallback {
            return true;
        }
    }
    false
}

/// Steps of a boundary's run as open work.
pub fn row_items<P: Parts>(
    alloc: Global,
    boundary: u64,
    steps: &[RowStep],
) -> Result<List<Item<P>>, OutOfMemory>
    ensures { IfOk result (λ items.
        work_of items ≡ run.row_items boundary (map row_step_of steps.now)) }
{
    let mut items = List::new(alloc);
    for step in steps {
        items.push(Item::Row {
            boundary,
            step: *step,
        })?;
    }
    Ok(items)
}

impl<A: App> Scopes<A> {
    /// Runs a scope: its marks go, the before-render hooks are called, then its body, or the first
    /// steps of a suspense boundary. The agenda that this leads to; none of a scope that is gone.
    pub fn run(&mut self, app: &A, calls: &mut Calls, scope: ScopeId) -> Result<List<Item<A>>, Stop>
        ensures run { Comes (λ w. run.run (A.meaning app.now) w scope.0)
            self.old.state calls.old self.new.state calls.new work_of result }
    {
        let Some(found) = self.state.scope(scope.0) else {
            return Ok(List::new(self.alloc));
        };
        if is_suspense_boundary(&found.rest.component) {
            let steps = row_of(found.rest.shows, is_held(found));
            return self.run_steps(app, calls, scope.0, steps);
        }
        let component = found.rest.component.copy(self.alloc)?;
        self.run_component(app, calls, scope.0, &component)
    }

    /// Runs these steps of a suspense boundary: its marks go, and the before-render hooks are called
    /// first.
    fn run_steps(
        &mut self,
        app: &A,
        calls: &mut Calls,
        boundary: u64,
        steps: &[RowStep],
    ) -> Result<List<Item<A>>, Stop>
        ensures run { Comes (λ w. steps_run (A.meaning app.now) w boundary
            (map row_step_of steps.now))
            self.old.state calls.old self.new.state calls.new work_of result }
    {
        self.state.unmark(boundary);
        self.call_hooks(app, calls, ScopeId(boundary), false)?;
        self.run_boundary(app, calls, boundary, steps)
    }

    /// Runs the body of another component: the marks of its scope go, and the before-render hooks are
    /// called first.
    fn run_component(
        &mut self,
        app: &A,
        calls: &mut Calls,
        scope: u64,
        component: &VComponent<A>,
    ) -> Result<List<Item<A>>, Stop>
        ensures run { Comes (λ w. body_run (A.meaning app.now) w scope
            (component_of component.now))
            self.old.state calls.old self.new.state calls.new work_of result }
    {
        self.state.unmark(scope);
        self.call_hooks(app, calls, ScopeId(scope), false)?;
        self.run_body(app, calls, scope, component)
    }

    /// Calls a body, and does what follows its answer.
    fn run_body(
        &mut self,
        app: &A,
        calls: &mut Calls,
        scope: u64,
        component: &VComponent<A>,
    ) -> Result<List<Item<A>>, Stop>
        ensures run { Comes (λ w. call_body (A.meaning app.now) w scope
            (component_of component.now)
            (λ v answer. run.after_answer (A.meaning app.now) v scope answer))
            self.old.state calls.old self.new.state calls.new work_of result }
    {
        let answer = self.call_component(app, calls, ScopeId(scope), component)?;
        self.after_answer(app, calls, scope, answer)
    }

    /// The run of a suspense boundary: its steps. Where no fallback runs the after-render hooks
    /// come at the start.
    fn run_boundary(
        &mut self,
        app: &A,
        calls: &mut Calls,
        boundary: u64,
        steps: &[RowStep],
    ) -> Result<List<Item<A>>, Stop>
        ensures run { Comes (λ w. boundary_run (A.meaning app.now) w boundary
            (map row_step_of steps.now))
            self.old.state calls.old self.new.state calls.new work_of result }
    {
        if runs_fallback(steps) {
            return Ok(row_items(self.alloc, boundary, steps)?);
        }
        self.hook_and_run(app, calls, boundary, steps)
    }

    /// The after-render hooks of a boundary are called, and then its steps are open.
    fn hook_and_run(
        &mut self,
        app: &A,
        calls: &mut Calls,
        boundary: u64,
        steps: &[RowStep],
    ) -> Result<List<Item<A>>, Stop>
        ensures run { Comes (λ w. onward (after_hooks (A.meaning app.now) w boundary)
            (λ v. Done v (run.row_items boundary (map row_step_of steps.now))))
            self.old.state calls.old self.new.state calls.new work_of result }
    {
        self.call_hooks(app, calls, ScopeId(boundary), true)?;
        Ok(row_items(self.alloc, boundary, steps)?)
    }
}
