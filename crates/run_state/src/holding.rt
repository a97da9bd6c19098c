//! Boundaries that a task holds, by the pairs of both: marked and let go.
ghost use Rattle.std.specs.Prelude.{◌≡◌, ◌<◌, ◌++◌, ◌∷◌, [], ℕ, nat_eq, length, map, OnOk, true, false, if◌then◌else◌};
ghost use Rattle.rt_model.specs.Lists.{has};
ghost use Rattle.rt_model.specs.State as model;
ghost use Rattle.rt_model.specs.State.{change};
ghost use Rattle.rt_model.specs.Commands.{holding, released};
ghost use Rattle.run_owed.specs.Lists.{numbers_of};
ghost use Rattle.run_records.specs.Kept.{scope_of};
ghost use Rattle.run_state.specs.Drawn.{beside_lists};
ghost use Rattle.run_state.specs.Effects.{has_rank, holds_at};
ghost use Rattle.run_state.specs.Holders.{let_go, others};
ghost use Rattle.run_state.specs.Mirror.{scopes_of, state_of};

use crate::ranks::Ranks;
use crate::scopes::holds;
use crate::state::State;
use rt_values::{Boxed, OutOfMemory};
use run_owed::Owed;
use run_records::Scope;
use run_table::BoxedTable;
use tree_nodes::{Parts, SuspendedFuture};

impl<P: Parts> State<P> {
    /// Takes a task out of all boundaries' holders: of those that it is paired with. No others are gone
    /// through.
    pub(crate) fn release(&mut self, task: u64) -> Result<(), OutOfMemory>
        ensures released { OnOk result ((g : _) → state_of g self.new ≡ record (state_of g self.old) {
          scopes = scopes_of (map (let_go task) self.old.rows.table);
        }) }
    {
        while let Some(boundary) = self.held.first_of(task) {
            self.release_one(boundary, task)?;
        }
        Ok(())
    }

    /// Takes a task out of the holders of a scope, and the pair of both out.
    fn release_one(&mut self, boundary: u64, task: u64) -> Result<(), OutOfMemory>
        requires paired { has_rank self.old.held task boundary ≡ true }
        ensures done { OnOk result (released (scopes_of self.new.rows.table) task
            ≡ released (scopes_of self.old.rows.table) task) }
        ensures numbers { OnOk result (numbers_of (scopes_of self.new.rows.table)
            ≡ numbers_of (scopes_of self.old.rows.table)) }
        ensures others { OnOk result ((g : _) → state_of g self.new ≡ record (state_of g self.old) {
          scopes = scopes_of self.new.rows.table;
        }) }
        ensures fewer { OnOk result (length self.new.held < length self.old.held) }
    {
        self.let_off(boundary, task)?;
        self.held.remove(task, boundary);
        Ok(())
    }

    /// Takes a task out of the holders of a scope, where that is live.
    fn let_off(&mut self, scope: u64, task: u64) -> Result<(), OutOfMemory>
        ensures off { OnOk result ((g : _) → state_of g self.new
            ≡ change (state_of g self.old) scope (λ x. record x { holders = others x.holders task })) }
        ensures held { self.new.held ≡ self.old.held }
    {
        self.change_listed(
            scope,
            |found: &mut Scope<P>| -> Result<(), OutOfMemory>
                ensures changed { found.new ≡ record found.old {
                  rest = record found.old.rest {
                    holders = others found.old.rest.holders task;
                  };
                } }
                ensures stay { beside_lists found.new ≡ beside_lists found.old }
            {
                found.rest.holders.drop_task(task);
                Ok(())
            },
        )
    }
}

/// Posts the marks of the boundaries that a task holds, which are entered and paired with it: by number,
/// which is the order of the table. Pairs of other tasks aren't gone through; only where the table's
/// numbers didn't rise is each scope looked at.
pub(crate) fn add_holding<P: Parts>(
    rows: &BoxedTable<Scope<P>>,
    held: &Ranks,
    task: u64,
    owed: &mut Owed,
)
    requires paired { (s : ℕ) → holds_at (scopes_of rows.now) s task ≡ true
        → has_rank held.now task s ≡ true }
    requires entered { numbers_of rows.now ≡ numbers_of owed.old.scopes }
    ensures posted { owed.new ≡ record owed.old {
      posted = owed.old.posted ++ holding (scopes_of rows.now) task;
    } }
{
    if !rows.rises() {
        hold_each(rows.as_slice(), task, owed);
        return;
    }
    let mut left = held.numbers_of(task);
    while let Some(boundary) = left.next() {
        post_held(rows, boundary, task, owed);
    }
}

/// Posts the mark of a scope, where it is live and the task holds it.
fn post_held<P: Parts>(rows: &BoxedTable<Scope<P>>, boundary: u64, task: u64, owed: &mut Owed)
    requires entered { numbers_of rows.now ≡ numbers_of owed.old.scopes }
    ensures posted { owed.new ≡ record owed.old {
      posted = owed.old.posted
          ++ (if holds_at (scopes_of rows.now) boundary task then model.Mark boundary ∷ [] else []);
    } }
{
    if !is_held_by(rows, boundary, task) {
        return;
    }
    owed.post_mark(boundary);
}

/// Whether a scope is live and a task holds it.
fn is_held_by<P: Parts>(rows: &BoxedTable<Scope<P>>, scope: u64, task: u64) -> bool
    ensures { result ≡ holds_at (scopes_of rows.now) scope task }
{
    match rows.get(scope) {
        Some(found) => holds(found, task),
        None => false,
    }
}

/// The same marks, with each scope looked at.
fn hold_each<P: Parts>(scopes: &[(u64, Boxed<Scope<P>>)], task: u64, owed: &mut Owed)
    requires entered { numbers_of scopes.now ≡ numbers_of owed.old.scopes }
    ensures posted { owed.new ≡ record owed.old {
      posted = owed.old.posted ++ holding (scopes_of scopes.now) task;
    } }
{
    for entry in scopes {
        add_held(entry, task, owed);
    }
}

/// Posts the mark of an entered boundary, where the task holds it.
fn add_held<P: Parts>(entry: &(u64, Boxed<Scope<P>>), task: u64, owed: &mut Owed)
    requires entered { has (numbers_of owed.old.scopes) entry.now.0 ≡ true }
    ensures posted { owed.new ≡ record owed.old {
      posted = owed.old.posted
          ++ (if model.holds (scope_of entry.now.1) task then model.Mark entry.now.0 ∷ [] else []);
    } }
{
    if !holds(entry.1.get(), task) {
        return;
    }
    owed.post_mark(entry.0);
}

/// Takes the pairs of a scope with its holders out.
fn drop_pairs(pairs: &mut Ranks, holders: &[SuspendedFuture], scope: u64)
    ensures { (t s : ℕ) → nat_eq scope s ≡ false → has_rank pairs.new t s ≡ has_rank pairs.old t s }
{
    for holder in holders {
        pairs.remove(holder.task.0, scope);
    }
}

/// Takes the pairs of a live scope with its holders out.
pub(crate) fn drop_paired<P: Parts>(rows: &BoxedTable<Scope<P>>, pairs: &mut Ranks, scope: u64)
    ensures { (t s : ℕ) → nat_eq scope s ≡ false → has_rank pairs.new t s ≡ has_rank pairs.old t s }
{
    match rows.get(scope) {
        Some(found) => drop_pairs(pairs, found.rest.holders.as_slice(), scope),
        None => {}
    }
}
