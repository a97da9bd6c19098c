//! Errors, and what waits for a suspense boundary.
ghost use Rattle.std.specs.Prelude.{◌≡◌, ◌++◌, ◌∷◌, [], OnOk, OnErr, Some, None, option_map, true};
ghost use Rattle.rt_model.specs.State.{change, height_of};
ghost use Rattle.rt_model.specs.Commands.{throw_error, clear_error, registered, frozen_at};
ghost use Rattle.rt_model.specs.State.{suspense_context};
ghost use Rattle.tree_mirror.specs.Mirror.{error_of};
ghost use Rattle.run_records.specs.Records.{hook_of};
ghost use Rattle.run_state.specs.Drawn.{beside_lists, kept_for};
ghost use Rattle.run_state.specs.Effects.{has_rank};
ghost use Rattle.run_state.specs.Mirror.{scopes_of, state_of};

use crate::state::State;
use rt_cells::Source;
use rt_values::{OutOfMemory, ScopeId};
use run_records::{Hook, Scope};
use tree_nodes::{CapturedError, Parts};

impl<P: Parts> State<P> {
    /// An error comes to the nearest error boundary from a scope upwards. It fills the boundary's slot
    /// where that is empty, and the slot's readers are marked.
    pub fn throw_error(&mut self, scope: u64, error: CapturedError) -> Result<(), OutOfMemory>
        ensures thrown { OnOk result ((g : _) →
            state_of g self.new ≡ throw_error (state_of g self.old) scope (error_of error)) }
        ensures err { OnErr result (self.new ≡ self.old) }
    {
        let Some(boundary) = self.error_context(scope) else {
            return Ok(());
        };
        let Some(found) = self.scope(boundary) else {
            return Ok(());
        };
        if found.row.error.is_some() {
            return Ok(());
        }
        self.put_error(boundary, Some(error))?;
        self.tell(Source::Error(ScopeId(boundary)))
    }

    /// Empties the slot of the nearest error boundary from a scope upwards, and marks its readers, also
    /// where it was empty.
    pub fn clear_error(&mut self, scope: u64) -> Result<(), OutOfMemory>
        ensures cleared { OnOk result ((g : _) →
            state_of g self.new ≡ clear_error (state_of g self.old) scope) }
        ensures err { OnErr result (self.new ≡ self.old) }
    {
        let Some(boundary) = self.error_context(scope) else {
            return Ok(());
        };
        self.put_error(boundary, None)?;
        self.tell(Source::Error(ScopeId(boundary)))
    }

    /// Fills or empties the slot of a live scope.
    fn put_error(&mut self, scope: u64, error: Option<CapturedError>) -> Result<(), OutOfMemory>
        ensures put { OnOk result ((g : _) →
            state_of g self.new ≡ change (state_of g self.old) scope
            (λ x. record x { error = option_map error_of error })) }
        ensures err { OnErr result (self.new ≡ self.old) }
    {
        self.change_asked(
            scope,
            |found: &mut Scope<P>| -> Result<(), OutOfMemory>
                ensures changed { OnOk result (found.new ≡ record found.old {
                  row = record found.old.row { error = error };
                }) }
                ensures stay { kept_for found.new ≡ kept_for found.old }
                ensures err { OnErr result (found.new ≡ found.old) }
            {
                found.row.error = error;
                Ok(())
            },
        )
    }

    /// Keeps one more hook of a live scope.
    pub fn keep_hook(&mut self, scope: u64, hook: Hook<P>) -> Result<(), OutOfMemory>
        ensures { OnOk result ((g : _) →
            state_of g self.new ≡ change (state_of g self.old) scope
            (λ x. record x { hooks = x.hooks ++ hook_of hook ∷ [] })) }
    {
        self.change_scope(
            scope,
            |found: &mut Scope<P>| -> Result<(), OutOfMemory>
                ensures changed { OnOk result (found.new ≡ record found.old {
                  row = record found.old.row { hooks = found.old.row.hooks ++ hook ∷ [] };
                }) }
                ensures stay { kept_for found.new ≡ kept_for found.old }
            { found.row.hooks.push(hook) },
        )
    }

    /// Queues one more effect of a live scope.
    pub fn queue_effect(&mut self, scope: u64, effect: P::Effect) -> Result<(), OutOfMemory>
        ensures { OnOk result ((g : _) →
            state_of g self.new ≡ change (state_of g self.old) scope
            (λ x. record x { effects = x.effects ++ effect ∷ [] })) }
    {
        let height = self.height_of(scope);
        self.effects.insert(height, scope)?;
        self.add_effect(scope, effect)
    }

    /// The same of a scope that is listed as one with queued effects, with its height.
    fn add_effect(&mut self, scope: u64, effect: P::Effect) -> Result<(), OutOfMemory>
        requires listed { has_rank self.old.effects
            (height_of (scopes_of self.old.rows.table) scope) scope ≡ true }
        ensures { OnOk result ((g : _) →
            state_of g self.new ≡ change (state_of g self.old) scope
            (λ x. record x { effects = x.effects ++ effect ∷ [] })) }
    {
        self.change_listed(
            scope,
            |found: &mut Scope<P>| -> Result<(), OutOfMemory>
                ensures changed { OnOk result (found.new ≡ record found.old {
                  rest = record found.old.rest { effects = found.old.rest.effects ++ effect ∷ [] };
                }) }
                ensures stay { beside_lists found.new ≡ beside_lists found.old }
                ensures holders { found.new.rest.holders ≡ found.old.rest.holders }
            { found.rest.effects.push(effect) },
        )
    }

    /// A callback waits for the next turn to its children of the scope's suspense boundary.
    pub fn register(&mut self, scope: u64, effect: P::Effect) -> Result<(), OutOfMemory>
        ensures registered { OnOk result ((g : _) →
            state_of g self.new ≡ registered (state_of g self.old) scope effect
            (suspense_context (state_of g self.old) scope)) }
        ensures err { OnErr result (self.new ≡ self.old) }
    {
        match self.suspense_context(scope) {
            Some(boundary) => self.add_callback(boundary, scope, effect),
            None => Ok(()),
        }
    }

    /// Puts a scope's callback after the others of a boundary.
    fn add_callback(
        &mut self,
        boundary: u64,
        scope: u64,
        effect: P::Effect,
    ) -> Result<(), OutOfMemory>
        ensures added { OnOk result ((g : _) →
            state_of g self.new ≡ change (state_of g self.old) boundary
            (λ x. record x { callbacks = x.callbacks ++ (scope, effect) ∷ [] })) }
        ensures err { OnErr result (self.new ≡ self.old) }
    {
        self.change_asked(
            boundary,
            |found: &mut Scope<P>| -> Result<(), OutOfMemory>
                ensures changed { OnOk result (found.new ≡ record found.old {
                  rest = record found.old.rest {
                    callbacks = found.old.rest.callbacks ++ (scope, effect) ∷ [];
                  };
                }) }
                ensures stay { kept_for found.new ≡ kept_for found.old }
                ensures err { OnErr result (found.new ≡ found.old) }
            { found.rest.callbacks.push((scope, effect)) },
        )
    }

    /// Freezes the scope's suspense boundary, so that a suspended render passes over what is below it.
    pub fn freeze(&mut self, scope: u64) -> Result<(), OutOfMemory>
        ensures frozen { OnOk result ((g : _) →
            state_of g self.new ≡ frozen_at (state_of g self.old)
            (suspense_context (state_of g self.old) scope)) }
        ensures err { OnErr result (self.new ≡ self.old) }
    {
        match self.suspense_context(scope) {
            Some(boundary) => self.freeze_boundary(boundary),
            None => Ok(()),
        }
    }

    /// Freezes a boundary.
    fn freeze_boundary(&mut self, boundary: u64) -> Result<(), OutOfMemory>
        ensures frozen { OnOk result ((g : _) →
            state_of g self.new ≡ change (state_of g self.old) boundary
            (λ x. record x { frozen = true })) }
        ensures err { OnErr result (self.new ≡ self.old) }
    {
        self.change_asked(
            boundary,
            |found: &mut Scope<P>| -> Result<(), OutOfMemory>
                ensures changed { OnOk result (found.new ≡ record found.old {
                  rest = record found.old.rest { frozen = true };
                }) }
                ensures stay { kept_for found.new ≡ kept_for found.old }
                ensures err { OnErr result (found.new ≡ found.old) }
            {
                found.rest.frozen = true;
                Ok(())
            },
        )
    }
}
