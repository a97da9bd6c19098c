//! The removal of a scope whose children are gone.
ghost use Rattle.std.specs.Prelude.{◌≡◌, []};
ghost use Rattle.rt_model.specs.Removal.{cleaned_in};
ghost use Rattle.rt_scopes.specs.Outcomes.{Comes, no_work};
ghost use Rattle.rt_scopes.specs.CleanUps.{ComesWaiting, one_cleaned, removed_where};

use crate::scopes::{Scopes, apart};
use author_calls::{App, Calls, Cx, Plain};
use rt_values::{List, ScopeId};
use run_records::Command;
use run_state::{Stop, clean_ups};

impl<A: App> Scopes<A> {
    /// Removes a scope that has no child left, in a patch or outside of one: its tasks end, its marks
    /// and effects go, all its clean-ups are called, last made first; then it goes with what it owns,
    /// and what the clean-ups asked for is done.
    pub fn remove_leaf(
        &mut self,
        app: &A,
        calls: &mut Calls,
        scope: ScopeId,
        patching: bool,
    ) -> Result<(), Stop>
        ensures removed { Comes (λ w. removed_where (A.meaning app.now) patching w scope.0)
            self.old.state calls.old self.new.state calls.new no_work result }
    {
        self.state.stopped(self.alloc, scope.0)?;
        let effects = clean_ups(self.alloc, self.state.hooks_of(scope.0))?;
        self.clean(app, calls, scope.0, effects.as_slice(), patching)
    }

    /// Calls the clean-ups of a scope in order; then it goes with what it owns, and what they asked
    /// for is done.
    fn clean(
        &mut self,
        app: &A,
        calls: &mut Calls,
        scope: u64,
        effects: &[A::Effect],
        patching: bool,
    ) -> Result<(), Stop>
        ensures cleaned { Comes (λ w. cleaned_in (A.meaning app.now) patching scope effects.now w [])
            self.old.state calls.old self.new.state calls.new no_work result }
    {
        let mut waiting = List::new(self.alloc);
        for effect in effects {
            self.clean_up(app, calls, scope, effect, patching, &mut waiting)?;
        }
        self.state.gone(self.alloc, scope)?;
        self.do_commands(ScopeId(scope), waiting)?;
        Ok(())
    }

    /// Calls a clean-up of a scope. What it asks for waits after what waits already.
    fn clean_up(
        &mut self,
        app: &A,
        calls: &mut Calls,
        scope: u64,
        effect: &A::Effect,
        patching: bool,
        waiting: &mut List<Command<A>>,
    ) -> Result<(), Stop>
        ensures called { ComesWaiting (one_cleaned (A.meaning app.now) patching scope effect.now)
            self.old.state calls.old waiting.old self.new.state calls.new waiting.new result }
    {
        let world = self.state.world(None, patching);
        let cx = Cx::<A, Plain>::enter(self.alloc, calls, &world, ScopeId(scope));
        let turn = app.run_effect(self.alloc, effect, cx)?;
        let ((), left) = apart(turn.parts());
        let commands = self.after_call(left)?;
        waiting.append(commands)?;
        Ok(())
    }
}
