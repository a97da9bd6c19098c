//! What follows a body's answer: a render is counted, a suspension is held.
ghost use Rattle.std.specs.Prelude.{◌≡◌, ◌+◌, ◌++◌, ◌∷◌, [], Some, IfErr, IfNone, IfSome, OnErr, OnOk, option_map, true, false};
ghost use Rattle.rt_model.specs.Lists.{at};
ghost use Rattle.rt_model.specs.World.{at_end};
ghost use Rattle.rt_model.specs.State.{Done, Cut, change, ChildrenSide, SuspendedTask};
ghost use Rattle.run_state.specs.Mirror.{change_task};
ghost use Rattle.rt_model.specs.Run.{raised, suspends_on, joins, unmarked};
ghost use Rattle.run_state.specs.Names.{fault_of};
ghost use Rattle.run_state.specs.Climbs.{place_above};
ghost use Rattle.run_state.specs.Drawn.{beside_lists, kept_for};
ghost use Rattle.run_state.specs.Effects.{has_rank};
ghost use Rattle.run_state.specs.Heights.{task_scope};
ghost use Rattle.run_state.specs.Mirror.{state_of};

use crate::names::{Cause, Posted, Stop, TaskKind};
use crate::numbers::drop_skipped;
use crate::scopes::holds;
use crate::state::{State, TaskRow};
use rt_values::OutOfMemory;
use run_places::SideName;
use run_records::{Counter, Scope};
use tree_nodes::Parts;

/// The number after this one, where the counter has one left.
pub(crate) fn next_number(number: u64) -> Option<u64>
    ensures end { IfNone result (at_end number ≡ true) }
    ensures next { IfSome result (λ next. (at_end number ≡ false) × (next ≡ number + 1)) }
{
    if number == u64::MAX {
        None
    } else {
        Some(number + 1)
    }
}

/// The height below a scope of this one. None past the greatest `u32`, where no limit is.
pub(crate) fn next_height(height: u32) -> Option<u32>
    ensures { IfSome result (λ below. below ≡ height + 1) }
{
    height.checked_add(1)
}

impl<P: Parts> State<P> {
    /// The render count of a live scope rises by one.
    pub fn raised(&mut self, scope: u64) -> Result<(), Stop>
        ensures done { OnOk result ((g : _) →
            raised (state_of g self.old) scope ≡ Done (state_of g self.new) []) }
        ensures cut { (what : Cause) → IfErr result (λ stop. stop ≡ Stop.Fault what → (g : _) →
            raised (state_of g self.old) scope ≡ Cut (state_of g self.new) (fault_of what)) }
    {
        let Some(renders) = next_number(self.renders_of(scope)) else {
            return Err(Stop::Fault(Cause::IdsExhausted {
                what: Counter::Renders,
            }));
        };
        self.change_scope(
            scope,
            |found: &mut Scope<P>| -> Result<(), OutOfMemory>
                ensures changed { OnOk result (found.new ≡ record found.old {
                  row = record found.old.row { renders = renders };
                }) }
                ensures stay { kept_for found.new ≡ kept_for found.old }
            {
                found.row.renders = renders;
                Ok(())
            },
        )?;
        Ok(())
    }

    /// A scope suspends on a task, which has to be live: the task holds the boundary whose children
    /// `origin` stands among.
    pub fn suspends_on(&mut self, scope: u64, origin: u64, task: u64) -> Result<(), Stop>
        ensures done { OnOk result ((g : _) →
            suspends_on (state_of g self.old) scope origin task
            (at (state_of g self.old).tasks task) ≡ Done (state_of g self.new) []) }
        ensures cut { (what : Cause) → IfErr result (λ stop. stop ≡ Stop.Fault what → (g : _) →
            suspends_on (state_of g self.old) scope origin task
            (at (state_of g self.old).tasks task) ≡ Cut (state_of g self.new) (fault_of what)) }
    {
        if !self.has_task(task) {
            return Err(Stop::Fault(Cause::NoSuchTask { scope, task }));
        }
        let location = self.location(scope);
        self.suspend(task)?;
        self.joins(origin, task, location)?;
        Ok(())
    }

    /// A body waits for a live task.
    fn suspend(&mut self, task: u64) -> Result<(), OutOfMemory>
        ensures { OnOk result ((g : _) → state_of g self.new
            ≡ change_task (state_of g self.old) task (λ x. record x { kind = SuspendedTask })) }
    {
        self.change_task(
            task,
            |row: &mut TaskRow<P>| -> Result<(), OutOfMemory>
                ensures changed { OnOk result (row.new ≡ record row.old {
                  kind = TaskKind.Suspended;
                }) }
                ensures stay { task_scope row.new ≡ task_scope row.old }
            {
                row.kind = TaskKind::Suspended;
                Ok(())
            },
        )
    }

    /// The task holds the boundary whose children the scope stands among, once.
    fn joins(
        &mut self,
        origin: u64,
        task: u64,
        location: Option<(u64, SideName)>,
    ) -> Result<(), OutOfMemory>
        ensures { OnOk result ((g : _) → state_of g self.new
            ≡ joins (state_of g self.old) origin task (option_map place_above location)) }
    {
        match location {
            Some((boundary, SideName::Children)) => self.hold(origin, task, boundary),
            Some((_, SideName::Main)) => Ok(()),
            Some((_, SideName::Fallback)) => Ok(()),
            None => Ok(()),
        }
    }

    /// The task holds a boundary, once, where that is live.
    fn hold(&mut self, origin: u64, task: u64, boundary: u64) -> Result<(), OutOfMemory>
        ensures { OnOk result ((g : _) → state_of g self.new
            ≡ joins (state_of g self.old) origin task (Some (boundary, ChildrenSide))) }
    {
        let Some(found) = self.scope(boundary) else {
            return Ok(());
        };
        if holds(found, task) {
            return Ok(());
        }
        self.add_holder(boundary, task, origin)?;
        self.post(Posted::Mark(boundary))
    }

    /// Puts a task after the holders of a boundary.
    fn add_holder(&mut self, boundary: u64, task: u64, origin: u64) -> Result<(), OutOfMemory>
        ensures { OnOk result ((g : _) →
            state_of g self.new ≡ change (state_of g self.old) boundary
            (λ x. record x { holders = x.holders ++ (task, origin) ∷ [] })) }
    {
        self.held.insert(task, boundary)?;
        self.push_holder(boundary, task, origin)
    }

    /// The same where the two are paired.
    fn push_holder(&mut self, boundary: u64, task: u64, origin: u64) -> Result<(), OutOfMemory>
        requires paired { has_rank self.old.held task boundary ≡ true }
        ensures { OnOk result ((g : _) →
            state_of g self.new ≡ change (state_of g self.old) boundary
            (λ x. record x { holders = x.holders ++ (task, origin) ∷ [] })) }
    {
        self.change_listed(
            boundary,
            |found: &mut Scope<P>| -> Result<(), OutOfMemory>
                ensures changed { OnOk result (found.new ≡ record found.old {
                  rest = record found.old.rest {
                    holders = found.old.rest.holders ++ (task, origin) ∷ [];
                  };
                }) }
                ensures stay { beside_lists found.new ≡ beside_lists found.old }
                ensures err { OnErr result (found.new ≡ found.old) }
            { found.rest.holders.push(task, origin) },
        )
    }

    /// Takes out the marks of a scope, which isn't skipped any more.
    pub fn unmark(&mut self, scope: u64)
        ensures { (g : _) → state_of g self.new ≡ unmarked (state_of g self.old) scope }
    {
        self.owed.unmark(scope);
        drop_skipped(&mut self.skipped, scope);
    }
}
