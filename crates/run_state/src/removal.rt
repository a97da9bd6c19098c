//! What a removal takes: children first, and of each scope all that it owns.
ghost use Rattle.std.specs.Prelude.{◌≡◌, ◌++◌, ◌∷◌, [], ℕ, List, true, nat_eq, map, OnOk, IfOk, if◌then◌else◌, None, false};
ghost use Rattle.rt_model.specs.World.{clean_up_kind};
ghost use Rattle.rt_model.specs.Lists.{has, without};
ghost use Rattle.run_owed.specs.Lists.{first_with};
ghost use Rattle.rt_model.specs.Removal.{stopped, gone, without_scope, told_of_sources, tell_all, cell_sources, context_sources, kinds_in, kinds_of_scopes, kinds_of_contexts, clean_ups as clean_ups_of};
ghost use Rattle.run_records.specs.Records.{source_of, hook_of};
ghost use Rattle.run_table.specs.Found.{Ascends};
ghost use Rattle.run_state.specs.CleanUps.{own_clean_up};
ghost use Rattle.run_state.specs.Mirror.{forgets, scopes_of, state_of};

use crate::holding::drop_paired;
use crate::mounting::drop_hidden;
use crate::numbers::{drop_number, drop_skipped, insert_number};
use crate::places::remove_rows;
use crate::state::State;
use rt_cells::{Reader, Source};
use rt_values::{Boxed, List, OutOfMemory, Part, ScopeId};
use run_records::{CLEAN_UP, Hook, Scope};
use std::alloc::Global;
use tree_nodes::Parts;

/// The clean-ups among these hooks, last made first.
pub fn clean_ups<P: Parts>(alloc: Global, hooks: &[Hook<P>]) -> Result<List<P::Effect>, OutOfMemory>
    ensures { IfOk result (λ effects. effects ≡ clean_ups_of (map hook_of hooks.now) []) }
{
    let mut effects = Vec::new(alloc);
    for hook in hooks {
        add_clean_up(alloc, hook, &mut effects)?;
    }
    effects.reverse();
    Ok(List::from_vec(effects))
}

/// Puts a copy of a hook's effect at the end, where it is a clean-up.
fn add_clean_up<P: Parts>(
    alloc: Global,
    hook: &Hook<P>,
    effects: &mut Vec<P::Effect>,
) -> Result<(), OutOfMemory>
    ensures { OnOk result (effects.new.items ≡ effects.old.items ++ own_clean_up (hook_of hook.now)) }
{
    match hook {
        Hook::Value(_, _) => Ok(()),
        Hook::Effect(kind, effect) => add_of_kind(alloc, *kind, effect, effects),
    }
}

/// Puts a copy of an effect at the end, where it is a clean-up.
fn add_of_kind<E: Part>(
    alloc: Global,
    kind: u32,
    effect: &E,
    effects: &mut Vec<E>,
) -> Result<(), OutOfMemory>
    ensures { OnOk result (effects.new.items
        ≡ effects.old.items ++ (if nat_eq kind clean_up_kind then effect.now ∷ [] else [])) }
{
    if kind == CLEAN_UP {
        effects.push(effect.copy(alloc)?)?;
        Ok(())
    } else {
        Ok(())
    }
}

/// Puts the kinds of a scope's contexts that the scopes have read in their places.
fn add_scope_kinds<P: Parts>(
    scope: u64,
    scopes: &[(u64, Boxed<Scope<P>>)],
    kinds: &mut Vec<u32>,
) -> Result<(), OutOfMemory>
    ensures { OnOk result (kinds.new.items
        ≡ kinds_of_scopes scope (scopes_of scopes.now) kinds.old.items) }
{
    for entry in scopes {
        let other = entry.1.get();
        add_kinds(scope, other.rest.reads.as_slice(), kinds)?;
    }
    Ok(())
}

/// Puts the kinds of a scope's contexts that these sources name in their places.
fn add_kinds(scope: u64, sources: &[Source], kinds: &mut Vec<u32>) -> Result<(), OutOfMemory>
    ensures { OnOk result (kinds.new.items
        ≡ kinds_in scope (map source_of sources.now) kinds.old.items) }
{
    for source in sources {
        add_kind(scope, *source, kinds)?;
    }
    Ok(())
}

/// Puts the kind of a scope's context in its place, where the source is one.
fn add_kind(scope: u64, source: Source, kinds: &mut Vec<u32>) -> Result<(), OutOfMemory>
    ensures { OnOk result (kinds.new.items ≡ kinds_in scope (source_of source ∷ []) kinds.old.items) }
{
    match source {
        Source::Context(kind, provider) => {
            if provider.0 == scope {
                insert_number(kinds, kind)
            } else {
                Ok(())
            }
        }
        Source::Cell(_) => Ok(()),
        Source::Error(_) => Ok(()),
    }
}

impl<P: Parts> State<P> {
    /// A scope's tasks end, its marks and effects go.
    pub fn stopped(&mut self, alloc: Global, scope: u64) -> Result<(), OutOfMemory>
        ensures { OnOk result ((g : _) →
            state_of g self.new ≡ stopped (state_of g self.old) scope) }
    {
        self.end_tasks(scope)?;
        self.unmark(scope);
        self.drop_effects(alloc, scope)
    }

    /// A scope and what it owns are gone, and the readers of that are marked. A scope that is seen, or
    /// whose tasks haven't ended, is answered as want of memory.
    pub fn gone(&mut self, alloc: Global, scope: u64) -> Result<(), OutOfMemory>
        // Its last call is kept no more.
        ensures { OnOk result ((g : _) →
            state_of (forgets g scope) self.new ≡ gone (state_of g self.old) scope) }
    {
        if self.is_at_work(scope) {
            return Err(OutOfMemory);
        }
        let cells = self.cells.owned(alloc, ScopeId(scope))?;
        self.drop_scope(scope);
        self.tell_cells(cells.as_slice())?;
        self.tell_of_sources(alloc, scope)
    }

    /// Whether a scope is seen, or a task of it hasn't ended.
    fn is_at_work(&self, scope: u64) -> bool
        ensures unseen { result ≡ false → has self.now.owed.seen scope ≡ false }
        ensures no_tasks { result ≡ false → first_with scope self.now.owed.tasks ≡ None }
    {
        self.owed.sees(scope) || self.owed.first_task(scope).is_some()
    }

    /// The record goes, with its cells and reactive contexts.
    fn drop_scope(&mut self, scope: u64)
        requires unseen { has self.old.owed.seen scope ≡ false }
        requires no_tasks { first_with scope self.old.owed.tasks ≡ None }
        ensures { (g : _) →
            state_of (forgets g scope) self.new ≡ without_scope (state_of g self.old) scope }
    {
        self.cells.drop_cells(ScopeId(scope));
        self.cells.drop_contexts(ScopeId(scope));
        drop_number(&mut self.resolved, scope);
        drop_skipped(&mut self.skipped, scope);
        self.remove_scope(scope);
    }

    /// The record alone goes. What is owed of the scope stays, to be passed over.
    fn remove_scope(&mut self, scope: u64)
        requires unseen { has self.old.owed.seen scope ≡ false }
        requires no_tasks { first_with scope self.old.owed.tasks ≡ None }
        ensures removed { (g : _) → state_of g self.new ≡ record (state_of g self.old) {
          scopes = without (state_of g self.old).scopes scope;
        } }
    {
        if !self.is_live(scope) {
            return;
        }
        self.owed.leave_scope(scope);
        self.cells.drop_reader(Reader::Scope(ScopeId(scope)));
        drop_hidden(&mut self.hidden, &mut self.hiders, scope);
        drop_paired(&self.rows.table, &mut self.held, scope);
        remove_rows(&mut self.rows.table, &mut self.places, scope);
    }

    /// Marks those who read these cells, cell by cell.
    fn tell_cells(&mut self, cells: &[u64]) -> Result<(), OutOfMemory>
        ensures { OnOk result ((g : _) →
            state_of g self.new ≡ tell_all (state_of g self.old) (cell_sources cells.now)) }
    {
        for cell in cells {
            self.tell(Source::Cell(*cell))?;
        }
        Ok(())
    }

    /// Marks those who read what a scope provided of these kinds, kind by kind.
    fn tell_kinds(&mut self, scope: u64, kinds: &[u32]) -> Result<(), OutOfMemory>
        ensures { OnOk result ((g : _) →
            state_of g self.new ≡ tell_all (state_of g self.old) (context_sources scope kinds.now)) }
    {
        for kind in kinds {
            self.tell(Source::Context(*kind, ScopeId(scope)))?;
        }
        Ok(())
    }

    /// Marks those who read the error slot of a scope, and then those who read what it provided, by
    /// kind.
    fn tell_of_sources(&mut self, alloc: Global, scope: u64) -> Result<(), OutOfMemory>
        ensures { OnOk result ((g : _) →
            state_of g self.new ≡ told_of_sources (state_of g self.old) scope) }
    {
        let kinds = self.read_kinds(alloc, scope)?;
        self.tell(Source::Error(ScopeId(scope)))?;
        self.tell_kinds(scope, kinds.as_slice())
    }

    /// Of what a scope provides, the kinds that some reader has, ascending: as the cells know it. Only
    /// where the scopes' numbers didn't rise is each scope looked at besides.
    fn read_kinds(&self, alloc: Global, scope: u64) -> Result<Vec<u32>, OutOfMemory>
        ensures { IfOk result (λ kinds. (g : _) →
            kinds.items ≡ kinds_of_contexts scope (state_of g self.now).contexts
            (kinds_of_scopes scope (state_of g self.now).scopes [])) }
    {
        if !self.rows.table.rises() {
            return self.kinds_of_each(alloc, scope);
        }
        let mut kinds = Vec::new(alloc);
        self.add_listed(alloc, scope, &mut kinds)?;
        Ok(kinds)
    }

    /// The same, with each scope looked at.
    fn kinds_of_each(&self, alloc: Global, scope: u64) -> Result<Vec<u32>, OutOfMemory>
        ensures { IfOk result (λ kinds. (g : _) →
            kinds.items ≡ kinds_of_contexts scope (state_of g self.now).contexts
            (kinds_of_scopes scope (state_of g self.now).scopes [])) }
    {
        let mut kinds = Vec::new(alloc);
        add_scope_kinds(scope, self.rows.table.as_slice(), &mut kinds)?;
        self.add_listed(alloc, scope, &mut kinds)?;
        Ok(kinds)
    }

    /// Puts the kinds in their places that the cells know of. With these, all are there, where none was
    /// and the scopes' numbers rise, or where those of each scope were.
    fn add_listed(&self, alloc: Global, scope: u64, kinds: &mut Vec<u32>) -> Result<(), OutOfMemory>
        ensures rising { OnOk result ((g : _) → Ascends self.now.rows.table
            → kinds.old.items ≡ [] → kinds.new.items
            ≡ kinds_of_contexts scope (state_of g self.now).contexts
            (kinds_of_scopes scope (state_of g self.now).scopes [])) }
        ensures each { OnOk result ((g : _)
            → kinds.old.items ≡ kinds_of_scopes scope (scopes_of self.now.rows.table) []
            → kinds.new.items ≡ kinds_of_contexts scope (state_of g self.now).contexts
            (kinds_of_scopes scope (state_of g self.now).scopes [])) }
    {
        let sources = self.cells.context_sources(alloc, ScopeId(scope))?;
        add_kinds(scope, sources.as_slice(), kinds)
    }
}
