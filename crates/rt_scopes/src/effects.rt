//! Effects: of a batch, of hooks, of resolved callbacks.
ghost use Rattle.std.specs.Prelude.{◌≡◌, ◌++◌, false, IfOk, OnOk};
ghost use Rattle.rt_model.specs.Run.{acted, hooks_called};
ghost use Rattle.rt_model.specs.State.{hooks_of};
ghost use Rattle.rt_model.specs.Boundary.{called_back};
ghost use Rattle.rt_scopes.specs.Outcomes.{Comes, no_work};
ghost use Rattle.rt_scopes.specs.Hooks.{effect_in, effects_in, in_turn, one_called, render_kind};

use crate::scopes::{Scopes, apart};
use author_calls::{App, Calls, Cx, Plain};
use rt_sched::Effect;
use rt_values::{List, OutOfMemory, Part, ScopeId};
use run_records::{AFTER_RENDER, BEFORE_RENDER, Hook};
use run_state::Stop;
use std::alloc::Global;
use tree_nodes::Parts;

/// Copies of the effects of a kind among these hooks, in order.
fn effects_of_kind<P: Parts>(
    alloc: Global,
    hooks: &[Hook<P>],
    kind: u32,
) -> Result<List<P::Effect>, OutOfMemory>
    ensures { IfOk result (λ effects. effects ≡ effects_in kind hooks.now) }
{
    let mut effects = List::new(alloc);
    for hook in hooks {
        add_effect(alloc, hook, kind, &mut effects)?;
    }
    Ok(effects)
}

/// Puts a copy of a hook's effect after these, where it is one of the kind.
fn add_effect<P: Parts>(
    alloc: Global,
    hook: &Hook<P>,
    kind: u32,
    effects: &mut List<P::Effect>,
) -> Result<(), OutOfMemory>
    ensures { OnOk result (effects.new ≡ effects.old ++ effect_in kind hook.now) }
{
    match hook {
        Hook::Value(_, _) => Ok(()),
        Hook::Effect(own, effect) => {
            if *own == kind {
                effects.push(effect.copy(alloc)?)
            } else {
                Ok(())
            }
        }
    }
}

/// The kind of the hooks that are called before a run or after it.
fn kind_of(after: bool) -> u32
    ensures { result ≡ render_kind after }
{
    if after { AFTER_RENDER } else { BEFORE_RENDER }
}

impl<A: App> Scopes<A> {
    /// Does an effect in a scope, and then what it asked for.
    fn act(
        &mut self,
        app: &A,
        calls: &mut Calls,
        scope: u64,
        effect: &A::Effect,
        rendering: bool,
    ) -> Result<(), Stop>
        ensures acted { Comes (λ w. acted (A.meaning app.now) w scope effect.now rendering)
            self.old.state calls.old self.new.state calls.new no_work result }
    {
        let world = self.state.world(None, rendering);
        let cx = Cx::<A, Plain>::enter(self.alloc, calls, &world, ScopeId(scope));
        let turn = app.run_effect(self.alloc, effect, cx)?;
        let ((), left) = apart(turn.parts());
        let commands = self.after_call(left)?;
        self.do_commands(ScopeId(scope), commands)?;
        Ok(())
    }

    /// Does effects in a scope in order, each one's commands done before the next.
    fn act_all(
        &mut self,
        app: &A,
        calls: &mut Calls,
        scope: u64,
        effects: &[A::Effect],
        rendering: bool,
    ) -> Result<(), Stop>
        ensures acted { Comes (λ w.
            in_turn (λ u e. acted (A.meaning app.now) u scope e rendering) w effects.now)
            self.old.state calls.old self.new.state calls.new no_work result }
    {
        for effect in effects {
            self.act(app, calls, scope, effect, rendering)?;
        }
        Ok(())
    }

    /// Calls the render hooks that a scope keeps, those before a run or those after it, each one's
    /// commands done before the next.
    pub fn call_hooks(
        &mut self,
        app: &A,
        calls: &mut Calls,
        scope: ScopeId,
        after: bool,
    ) -> Result<(), Stop>
        ensures called { Comes (λ w.
            hooks_called (A.meaning app.now) (render_kind after) w scope.0 (hooks_of w scope.0))
            self.old.state calls.old self.new.state calls.new no_work result }
    {
        let effects = effects_of_kind(self.alloc, self.state.hooks_of(scope.0), kind_of(after))?;
        self.act_all(app, calls, scope.0, effects.as_slice(), true)
    }

    /// Does the effects of a batch in its scope, in order. No look follows.
    pub fn call_effects(
        &mut self,
        app: &A,
        calls: &mut Calls,
        batch: Effect<A::Effect>,
    ) -> Result<(), Stop>
        ensures run { Comes (λ w.
            in_turn (λ u e. acted (A.meaning app.now) u batch.order.id.0 e false) w batch.effects)
            self.old.state calls.old self.new.state calls.new no_work result }
    {
        let scope = batch.order.id();
        self.act_all(app, calls, scope.0, batch.effects.as_slice(), false)
    }

    /// Does resolved callbacks in order, each in its scope. Those of scopes that are gone are
    /// passed over.
    pub fn call_back(
        &mut self,
        app: &A,
        calls: &mut Calls,
        callbacks: &[(u64, A::Effect)],
    ) -> Result<(), Stop>
        ensures called { Comes (λ w. called_back (A.meaning app.now) w callbacks.now)
            self.old.state calls.old self.new.state calls.new no_work result }
    {
        for callback in callbacks {
            self.call_one(app, calls, callback)?;
        }
        Ok(())
    }

    /// Does a resolved callback in its scope, where that is live.
    fn call_one(
        &mut self,
        app: &A,
        calls: &mut Calls,
        callback: &(u64, A::Effect),
    ) -> Result<(), Stop>
        ensures called { Comes (λ w. one_called (A.meaning app.now) w callback.now)
            self.old.state calls.old self.new.state calls.new no_work result }
    {
        if !self.state.is_live(callback.0) {
            return Ok(());
        }
        self.act(app, calls, callback.0, &callback.1, false)
    }
}
