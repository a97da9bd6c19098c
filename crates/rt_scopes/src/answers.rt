//! What follows a body's answer.
ghost use Rattle.std.specs.Prelude.{◌≡◌, [], if◌then◌else◌};
ghost use Rattle.rt_model.specs.Laws.{Tests};
ghost use Rattle.rt_model.specs.OneLog.{types};
ghost use Rattle.rt_model.specs.World.{Application};
ghost use Rattle.rt_model.specs.Tree.{placeholder_tree};
ghost use Rattle.rt_model.specs.State as model;
ghost use Rattle.rt_model.specs.State.{MainSide};
ghost use Rattle.rt_model.specs.Commands.{throw_error};
ghost use Rattle.rt_model.specs.Run as run;
ghost use Rattle.rt_model.specs.Run.{settled_answer, after_hooks, start_agenda, has_output};
ghost use Rattle.tree_mirror.specs.Mirror.{error_of};
ghost use Rattle.tree_mirror.specs.Sealed.{element_of, tree_of};
ghost use Rattle.run_places.specs.Places.{side_name_of};
ghost use Rattle.run_work.specs.Items.{work_of};
ghost use Rattle.rt_scopes.specs.Bodies.{unanswered};
ghost use Rattle.rt_scopes.specs.Outcomes.{Comes, no_work};

use crate::agenda::start_agenda;
use crate::scopes::Scopes;
use author_calls::{App, Calls};
use rt_values::{List, ScopeId};
use run_places::SideName;
use run_state::Stop;
use run_work::Item;
use tree_nodes::{CapturedError, Element, RenderError, VNode};

impl<A: App> Scopes<A> {
    /// The answer settles, the after-render hooks are called, the output changes. The agenda.
    pub(crate) fn after_answer(
        &mut self,
        app: &A,
        calls: &mut Calls,
        scope: u64,
        answer: Element<A>,
    ) -> Result<List<Item<A>>, Stop>
        ensures followed { Comes (λ w.
            run.after_answer (A.meaning app.now) w scope (element_of answer))
            self.old.state calls.old self.new.state calls.new work_of result }
    {
        match self.settle_and_hook(app, calls, scope, &answer) {
            Ok(()) => self.new_output(scope, answer),
            Err(stop) => Err(stop),
        }
    }

    /// The answer settles, and the after-render hooks are called.
    fn settle_and_hook(
        &mut self,
        app: &A,
        calls: &mut Calls,
        scope: u64,
        answer: &Element<A>,
    ) -> Result<(), Stop>
        ensures settled { Comes (λ w. model.onward
            (settled_answer (A.meaning app.now) w scope (element_of answer.now))
            (λ v. after_hooks (A.meaning app.now) v scope))
            self.old.state calls.old self.new.state calls.new no_work result }
    {
        self.settle(scope, answer)?;
        self.call_hooks(app, calls, ScopeId(scope), true)
    }

    /// A tree raises the render count, an error is thrown, a suspension is held.
    fn settle(&mut self, scope: u64, answer: &Element<A>) -> Result<(), Stop>
        ensures settled { (app : _) (count : _) → Comes (λ w.
            settled_answer app w scope (element_of answer.now))
            self.old.state count self.new.state count no_work result }
    {
        match answer {
            Ok(_) => self.state.raised(scope),
            Err(refusal) => self.settle_refusal(scope, refusal),
        }
    }

    /// An error is thrown, a suspension is held.
    fn settle_refusal(&mut self, scope: u64, refusal: &RenderError) -> Result<(), Stop>
        ensures settled { (app : _) (count : _) → Comes (λ w.
            settled_answer app w scope (unanswered refusal.now))
            self.old.state count self.new.state count no_work result }
    {
        match refusal {
            RenderError::Error(error) => self.throw(scope, error),
            RenderError::Suspended(future) => {
                self.state
                    .suspends_on(scope, future.origin.0, future.task.0)
            }
        }
    }

    /// An error is thrown from a scope.
    fn throw(&mut self, scope: u64, error: &CapturedError) -> Result<(), Stop>
        ensures thrown { (count : _) → Comes (λ w.
            model.Done (throw_error w scope (error_of error.now)) [])
            self.old.state count self.new.state count no_work result }
    {
        let error = error.copy(self.alloc)?;
        self.state.throw_error(scope, error)?;
        Ok(())
    }

    /// A tree is the new output; else the output stays, or is one placeholder where there was none.
    fn new_output(&mut self, scope: u64, answer: Element<A>) -> Result<List<Item<A>>, Stop>
        ensures output { (app : Application
            (types A.Component A.Props A.Value A.Handler A.TaskState A.Effect A.Payload))
            → Tests A.Component app.same_component → (count : _) → Comes (λ w.
            run.new_output app w scope (element_of answer))
            self.old.state count self.new.state count work_of result }
    {
        match answer {
            Ok(tree) => self.patch(ScopeId(scope), SideName::Main, tree),
            Err(_) => self.no_output(scope),
        }
    }

    /// The output stays, or is one placeholder where there was none.
    fn no_output(&mut self, scope: u64) -> Result<List<Item<A>>, Stop>
        ensures output { (app : Application
            (types A.Component A.Props A.Value A.Handler A.TaskState A.Effect A.Payload))
            → Tests A.Component app.same_component → (count : _) → Comes (λ w.
            (if has_output w scope then model.Done w []
            else start_agenda app w scope MainSide placeholder_tree))
            self.old.state count self.new.state count work_of result }
    {
        if self.state.has_output(scope) {
            return Ok(List::new(self.alloc));
        }
        let tree = VNode::placeholder(self.alloc)?;
        self.patch(ScopeId(scope), SideName::Main, tree)
    }

    /// A tree becomes the kept output of a scope's side. Its agenda.
    pub fn patch(
        &mut self,
        scope: ScopeId,
        side: SideName,
        tree: VNode<A>,
    ) -> Result<List<Item<A>>, Stop>
        ensures patched { (app : Application
            (types A.Component A.Props A.Value A.Handler A.TaskState A.Effect A.Payload))
            → Tests A.Component app.same_component → (count : _) → Comes (λ w.
            start_agenda app w scope.0 (side_name_of side) (tree_of tree))
            self.old.state count self.new.state count work_of result }
    {
        Ok(start_agenda(self.alloc, &mut self.state, scope.0, side, tree)?)
    }
}
