//! Scopes that become mounted.
ghost use Rattle.std.specs.Prelude.{◌≡◌, ◌<◌, ◌∷◌, [], ℕ, List, Some, None, true, false, cond, nat_eq, length, get_or, take, map, IfOk, IfNone, IfSome, OnErr, OnOk};
ghost use Rattle.std.specs.BTreeMap.{is_at};
ghost use Rattle.std.specs.List.{list_any};
ghost use Rattle.rt_model.specs.Replay.{mounted_state};
ghost use Rattle.run_state.specs.Mounts.{Way, covers, hides, mounts_in, shown_in, ways_of};
ghost use Rattle.rt_model.specs.Lists.{at};
ghost use Rattle.run_state.specs.Effects.{has_rank, rank_cmp};
ghost use Rattle.run_state.specs.Mirror.{scopes_of, state_of};

use crate::ranks::Ranks;
use crate::state::State;
use rt_values::{List, OutOfMemory};
use run_records::Scope;
use tree_nodes::Parts;

impl<P: Parts> State<P> {
    /// Every scope that shows becomes mounted. The fresh ones are gone through, the last first; one
    /// that doesn't show is hidden from then on.
    pub fn mount_shown(&mut self) -> Result<(), OutOfMemory>
        ensures { OnOk result ((g : _) →
            state_of g self.new ≡ mounted_state (state_of g self.old)) }
    {
        let count = self.fresh.len();
        let mut known = None;
        for back in 0..count {
            known = self.mount_at(count - 1 - back, known)?;
        }
        Ok(())
    }

    /// Mounts the scope at an index of the fresh ones, where it shows; else it is hidden. Those
    /// before it stay. Of one scope it is known that it shows, and answered of the next one.
    fn mount_at(&mut self, index: usize, known: Option<u64>) -> Result<Option<u64>, OutOfMemory>
        requires within { index < length self.old.fresh }
        requires known { IfSome known (λ s. shown_in (scopes_of self.old.rows.table) s ≡ true) }
        ensures known { IfOk result (λ next. IfSome next (λ s.
            shown_in (scopes_of self.new.rows.table) s ≡ true)) }
        ensures mounted { OnOk result (self.new.rows.table ≡ map (mounts_in (scopes_of self.old.rows.table)
            (get_or self.old.fresh index 0 ∷ [])) self.old.rows.table) }
        ensures before { OnOk result (take index self.new.fresh ≡ take index self.old.fresh) }
        ensures others { (g : _) → state_of g self.new ≡ record (state_of g self.old) {
          scopes = scopes_of self.new.rows.table;
        } }
    {
        let scope = self.fresh.as_slice()[index];
        match self.hider_past(known, scope) {
            Some(above) => self.hide(index, scope, above),
            None => {
                let next = self.shown_parent(scope);
                self.mount(index, scope);
                Ok(next)
            }
        }
    }

    /// A fresh scope that shows becomes mounted.
    fn mount(&mut self, index: usize, scope: u64)
        requires within { index < length self.old.fresh }
        requires own { get_or self.old.fresh index 0 ≡ scope }
        requires shown { shown_in (scopes_of self.old.rows.table) scope ≡ true }
        ensures mounted { self.new.rows.table
            ≡ map (mounts_in (scopes_of self.old.rows.table) (scope ∷ [])) self.old.rows.table }
        ensures before { take index self.new.fresh ≡ take index self.old.fresh }
        ensures others { (g : _) → state_of g self.new ≡ record (state_of g self.old) {
          scopes = scopes_of self.new.rows.table;
        } }
    {
        let _done = self.rows.table.change(
            scope,
            |found: &mut Scope<P>| -> Result<(), OutOfMemory>
                ensures changed { found.new ≡ record found.old {
                  rest = record found.old.rest { mounted = true };
                } }
            {
                found.rest.mounted = true;
                Ok(())
            },
        );
        let _gone = self.fresh.remove(index);
    }

    /// A fresh scope that doesn't show waits for one above that hides it. One that is gone waits no
    /// more. Of none it is known that it shows then.
    fn hide(&mut self, index: usize, scope: u64, above: u64) -> Result<Option<u64>, OutOfMemory>
        requires within { index < length self.old.fresh }
        requires own { get_or self.old.fresh index 0 ≡ scope }
        requires hidden { (x : Way) → at (ways_of self.old.rows.table) scope ≡ Some x
            → hides (ways_of self.old.rows.table) above x.height scope ≡ true }
        ensures none { IfOk result (λ next. next ≡ None) }
        ensures rows { self.new.rows ≡ self.old.rows }
        ensures before { OnOk result (take index self.new.fresh ≡ take index self.old.fresh) }
        ensures others { (g : _) → state_of g self.new ≡ state_of g self.old }
    {
        if !self.is_live(scope) {
            self.fresh.remove(index);
            return Ok(None);
        }
        add_hidden(&mut self.hidden, &mut self.hiders, scope, above)?;
        let _gone = self.fresh.remove(index);
        Ok(None)
    }
}

/// One more scope is hidden by the one with this number.
fn add_hidden(
    hidden: &mut Ranks,
    hiders: &mut Ranks,
    scope: u64,
    above: u64,
) -> Result<(), OutOfMemory>
    ensures joined { OnOk result ((a s : ℕ) → has_rank hidden.new a s
        ≡ cond (is_at (rank_cmp (above, scope)) (a, s)) true (has_rank hidden.old a s)) }
    ensures err { OnErr result (hidden.new ≡ hidden.old) }
{
    hiders.insert(scope, above)?;
    hidden.insert(above, scope)
}

/// A scope that the one with this number hides is fresh.
fn uncover_one(
    fresh: &mut List<u64>,
    hidden: &mut Ranks,
    hiders: &mut Ranks,
    scope: u64,
    above: u64,
) -> Result<(), OutOfMemory>
    requires paired { has_rank hidden.old above scope ≡ true }
    ensures covered { (ways : List (ℕ × Way)) (height s : ℕ) → covers ways fresh.old hidden.old height s ≡ true
        → covers ways fresh.new hidden.new height s ≡ true }
    ensures fewer { OnOk result (length hidden.new < length hidden.old) }
{
    fresh.push(scope)?;
    hidden.remove(above, scope);
    hiders.remove(scope, above);
    Ok(())
}

/// What is hidden by the scope with this number is fresh. No others of the hidden ones are gone
/// through.
pub(crate) fn uncover(
    fresh: &mut List<u64>,
    hidden: &mut Ranks,
    hiders: &mut Ranks,
    above: u64,
) -> Result<(), OutOfMemory>
    ensures covered { (ways : List (ℕ × Way)) (height s : ℕ) → covers ways fresh.old hidden.old height s ≡ true
        → covers ways fresh.new hidden.new height s ≡ true }
    ensures none { OnOk result (list_any (λ e. nat_eq e.0 above) hidden.new ≡ false) }
{
    while let Some(scope) = hidden.first_of(above) {
        uncover_one(fresh, hidden, hiders, scope, above)?;
    }
    Ok(())
}

/// Takes a scope out of the hidden ones, by what hides it.
pub(crate) fn drop_hidden(hidden: &mut Ranks, hiders: &mut Ranks, scope: u64)
    ensures { (a s : ℕ) → nat_eq scope s ≡ false → has_rank hidden.new a s ≡ has_rank hidden.old a s }
{
    while let Some(above) = hiders.first_of(scope) {
        hidden.remove(above, scope);
        hiders.remove(scope, above);
    }
}
