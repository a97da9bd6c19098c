//! The build, and the units that follow.
ghost use Rattle.std.specs.Prelude.{◌≡◌, ℕ, ◌+◌, Some, IfErr, OnOk};
ghost use Rattle.rt_model.specs.State.{OutOfTurns};
ghost use Rattle.rt_model.specs.Next as next;
ghost use Rattle.rt_model.specs.Replay as replay;
ghost use Rattle.run_reports.specs.Seen.{limits_of};
ghost use Rattle.run_state.specs.Mirror.{scopes_of};
ghost use Rattle.run_state.specs.Names.{work_of as model_work};
ghost use Rattle.law_moves.specs.Turn.{entry_for, unit_of};
ghost use Rattle.run_outside.specs.Ends.{Explains, fault_in};
ghost use Rattle.run_turns.specs.Counting.{CountsChange};
ghost use Rattle.run_machine.specs.Machines.{Begins, BeginsUnit, Builds, first_in, is_rerun, RemembersAt};

use crate::machine::{Machine, stack};
use author_calls::{App, Calls};
use rt_values::ScopeId;
use run_outside::Ended;
use run_reports::{Entry, Limits};
use run_standing::first_kept;
use run_state::{Stop, Work};
use run_turns::{entry_for, first_step, sum};

impl<A: App> Machine<A> {
    /// Begins the build.
    pub fn build(&mut self, app: &A, calls: &mut Calls) -> Result<(), Stop>
        ensures builds { Builds (A.meaning app.now) self.old self.new result }
        ensures counted { OnOk result (CountsChange
            (λ w. unit_of (A.meaning app.now) w (next.RerunScope 0))
            self.old.scopes.state calls.old calls.new) }
        ensures first { first_in self.new ≡ Some replay.Build }
        ensures others { self.new ≡ record self.old {
          scopes = self.new.scopes;
          work = self.new.work;
          first = self.new.first;
        } }
    {
        self.first = Some(Entry::Build);
        let work = self.scopes.run(app, calls, ScopeId(0))?;
        Ok(stack(&mut self.work, work)?)
    }

    /// Begins a unit, where so many were not yet done.
    pub(crate) fn begin(
        &mut self,
        app: &A,
        calls: &mut Calls,
        work: Work,
        limits: Limits,
    ) -> Result<(), Ended>
        ensures explains { IfErr result (λ ended. (before after : ℕ) → Explains limits before after ended) }
        ensures begins { Begins (A.meaning app.now) (limits_of limits) (model_work work)
            self.old self.new result }
        ensures counted { OnOk result (CountsChange
            (λ w. unit_of (A.meaning app.now) w (model_work work))
            self.old.scopes.state calls.old calls.new) }
        ensures first { OnOk result (first_in self.new ≡ Some (entry_for (model_work work))) }
        ensures units { OnOk result (self.new.units ≡ self.old.units + 1) }
        ensures remembers { OnOk result ((g : _) →
            RemembersAt g self.new (scopes_of self.old.scopes.state.rows.table)) }
        ensures spent { IfErr result (λ ended. (units : ℕ) →
            fault_in ended ≡ Some (OutOfTurns units) → self.new ≡ self.old) }
        ensures uncalled { IfErr result (λ ended. (units : ℕ) →
            fault_in ended ≡ Some (OutOfTurns units) → calls.new ≡ calls.old) }
        ensures others { self.new ≡ record self.old {
          scopes = self.new.scopes;
          work = self.new.work;
          first = self.new.first;
          stood = self.new.stood;
          lived = self.new.lived;
          course = self.new.course;
          units = self.new.units;
        } }
    {
        if self.units == limits.units {
            return Err(Ended::OutOfTurns {
                units: limits.units,
            });
        }
        self.units = sum(self.units, 1)?;
        Ok(self.begin_unit(app, calls, work)?)
    }

    /// Begins a unit.
    fn begin_unit(&mut self, app: &A, calls: &mut Calls, work: Work) -> Result<(), Stop>
        ensures begins { BeginsUnit (A.meaning app.now) (model_work work)
            self.old self.new result }
        ensures counted { OnOk result (CountsChange
            (λ w. unit_of (A.meaning app.now) w (model_work work))
            self.old.scopes.state calls.old calls.new) }
        ensures first { OnOk result (first_in self.new ≡ Some (entry_for (model_work work))) }
        ensures remembers { OnOk result ((g : _) →
            RemembersAt g self.new (scopes_of self.old.scopes.state.rows.table)) }
        ensures others { self.new ≡ record self.old {
          scopes = self.new.scopes;
          work = self.new.work;
          first = self.new.first;
          stood = self.new.stood;
          lived = self.new.lived;
          course = self.new.course;
        } }
    {
        let entry = entry_for(work);
        self.course.note(entry)?;
        self.first = Some(entry);
        first_kept(self.scopes.alloc, &self.scopes.state, work, &mut self.stood)?;
        self.lived = self.scopes.state.rows.table.as_slice().len() as u64;
        let items = first_step(&mut self.scopes, app, calls, work)?;
        Ok(stack(&mut self.work, items)?)
    }

    /// Whether the states before and after the unit at work are compared.
    pub(crate) fn is_compared(&self) -> bool
        ensures { result ≡ is_rerun (first_in self.now) }
    {
        match self.first {
            Some(Entry::Rerun(_)) => true,
            _ => false,
        }
    }
}
