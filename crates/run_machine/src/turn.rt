//! The loop: one move a turn, until nothing is at work and nothing is owed.
ghost use Rattle.std.specs.Prelude.{◌≡◌, ℕ, [], None, Some, IfOk, IfErr, OnOk};
ghost use Rattle.rt_model.specs.Laws.{IsLawful};
ghost use Rattle.rt_model.specs.OneLog.{types};
ghost use Rattle.rt_model.specs.State.{OutOfTurns};
ghost use Rattle.rt_model.specs.World.{Application};
ghost use Rattle.run_reports.specs.Seen.{entry_of, limits_of};
ghost use Rattle.rt_scopes.specs.Knowing.{Knows};
ghost use Rattle.run_state.specs.Mirror.{state_of};
ghost use Rattle.run_work.specs.Items.{item_of};
ghost use Rattle.run_outside.specs.Ends.{Took, Ends, Explains, fault_in};
ghost use Rattle.run_outside.specs.Turns.{taken_by};
ghost use Rattle.run_machine.specs.Keeps.{TurnKeeps, WorkKeeps};
ghost use Rattle.run_machine.specs.Machines.{first_in};
ghost use Rattle.run_machine.specs.Stands.{counting, QuietAs, SettlesAs, StandsAt, StandsBefore, StandsFor, StandsQuiet, TurnsAs};

use crate::machine::Machine;
use author_calls::{App, Calls};
use law_moves::due_is_any;
use rt_edits::WriteMutations;
use rt_scopes::Known;
use run_outside::Ended;
use run_reports::{Entry, Limits};
use run_state::Stop;
use run_turns::sum;
use run_work::Item;

impl<A: App> Machine<A> {
    /// Goes on until nothing is at work and nothing is owed. The answer is how many edits were
    /// written. A run of more turns than a `u64` counts ends as one that has no memory.
    pub fn settle<M: WriteMutations>(
        &mut self,
        app: &A,
        calls: &mut Calls,
        limits: Limits,
        sink: &mut M,
    ) -> Result<u64, Ended>
        ensures ok { IfOk result (λ taken. Took (M.taken sink.old) (M.taken sink.new)
            (M.faults sink.old) (M.faults sink.new) taken) }
        ensures err { IfErr result (λ ended. Ends limits 0
            (M.taken sink.old) (M.taken sink.new) (M.faults sink.old) (M.faults sink.new) ended) }
        ensures settles { (r : _) (edits : _) →
            StandsAt (A.meaning app.now) (limits_of limits) (counting r calls.old) edits self.old →
            SettlesAs (A.meaning app.now) (limits_of limits) (counting r calls.new) edits
            (M.taken sink.old) (M.taken sink.new) self.new result }
    {
        let mut edits = 0u64;
        let mut known = Known::new(self.scopes.alloc);
        for _turn in 0..u64::MAX {
            let Some(written) = self.turn_knowing(app, calls, limits, sink, &mut known)? else {
                return Ok(edits);
            };
            edits = sum(edits, written)?;
        }
        Err(Ended::Run(Stop::OutOfMemory))
    }

    /// One move: an item of open work, the end of a unit, a listener, or the begin of a unit. The
    /// answer is how many edits it wrote; None where there is nothing to do.
    pub fn turn<M: WriteMutations>(
        &mut self,
        app: &A,
        calls: &mut Calls,
        limits: Limits,
        sink: &mut M,
    ) -> Result<Option<u64>, Ended>
        ensures ok { IfOk result (λ turn. Took (M.taken sink.old) (M.taken sink.new)
            (M.faults sink.old) (M.faults sink.new) (taken_by turn)) }
        ensures err { IfErr result (λ ended. Ends limits 0
            (M.taken sink.old) (M.taken sink.new) (M.faults sink.old) (M.faults sink.new) ended) }
        ensures turns { (r : _) (edits : _) →
            StandsAt (A.meaning app.now) (limits_of limits) (counting r calls.old) edits self.old →
            TurnsAs (A.meaning app.now) (limits_of limits) (counting r calls.new) edits
            (M.taken sink.old) (M.taken sink.new) self.old self.new result }
        ensures keeps { TurnKeeps self.old self.new result }
        // Where units are spent nothing was called.
        ensures uncalled { IfErr result (λ ended. (units : ℕ) →
            fault_in ended ≡ Some (OutOfTurns units) → calls.new ≡ calls.old) }
    {
        let mut known = Known::new(self.scopes.alloc);
        self.turn_knowing(app, calls, limits, sink, &mut known)
    }

    /// The same where the way down to a scope that goes is known. What is known after it spares the next
    /// move a look at trees.
    pub fn turn_knowing<M: WriteMutations>(
        &mut self,
        app: &A,
        calls: &mut Calls,
        limits: Limits,
        sink: &mut M,
        known: &mut Known,
    ) -> Result<Option<u64>, Ended>
        requires knows { (g : _) →
            Knows (state_of g self.old.scopes.state) known.old.rows.items }
        ensures ok { IfOk result (λ turn. Took (M.taken sink.old) (M.taken sink.new)
            (M.faults sink.old) (M.faults sink.new) (taken_by turn)) }
        ensures err { IfErr result (λ ended. Ends limits 0
            (M.taken sink.old) (M.taken sink.new) (M.faults sink.old) (M.faults sink.new) ended) }
        ensures turns { (r : _) (edits : _) →
            StandsAt (A.meaning app.now) (limits_of limits) (counting r calls.old) edits self.old →
            TurnsAs (A.meaning app.now) (limits_of limits) (counting r calls.new) edits
            (M.taken sink.old) (M.taken sink.new) self.old self.new result }
        ensures keeps { TurnKeeps self.old self.new result }
        // Where units are spent nothing was called.
        ensures uncalled { IfErr result (λ ended. (units : ℕ) →
            fault_in ended ≡ Some (OutOfTurns units) → calls.new ≡ calls.old) }
        ensures knows { OnOk result ((g : _) →
            Knows (state_of g self.new.scopes.state) known.new.rows.items) }
    {
        if let Some(item) = self.work.pop() {
            return self.work_turn(app, calls, &item, limits, sink, known);
        }
        known.clear();
        match self.first {
            Some(first) => self.close_turn(first, sink),
            None => Ok(self.quiet_turn(app, calls, limits)?),
        }
    }

    /// A move where an item of open work is left: it is served, or its refusal ends the run.
    fn work_turn<M: WriteMutations>(
        &mut self,
        app: &A,
        calls: &mut Calls,
        item: &Item<A>,
        limits: Limits,
        sink: &mut M,
        known: &mut Known,
    ) -> Result<Option<u64>, Ended>
        requires knows { (g : _) →
            Knows (state_of g self.old.scopes.state) known.old.rows.items }
        ensures ok { IfOk result (λ turn. Took (M.taken sink.old) (M.taken sink.new)
            (M.faults sink.old) (M.faults sink.new) (taken_by turn)) }
        ensures err { IfErr result (λ ended. Ends limits 0
            (M.taken sink.old) (M.taken sink.new) (M.faults sink.old) (M.faults sink.new) ended) }
        ensures turns { (r : _) (edits : _) (first : _) → first_in self.old ≡ Some first →
            StandsBefore (A.meaning app.now) (limits_of limits) (counting r calls.old)
            (item_of item.now) first edits self.old →
            TurnsAs (A.meaning app.now) (limits_of limits) (counting r calls.new) edits
            (M.taken sink.old) (M.taken sink.new) self.old self.new result }
        ensures keeps { WorkKeeps self.old self.new result }
        ensures knows { OnOk result ((g : _) →
            Knows (state_of g self.new.scopes.state) known.new.rows.items) }
    {
        match self.serve(app, calls, item, limits, known) {
            Ok(()) => Ok(Some(0)),
            Err(ended) => Err(self.cut(ended, item, sink)),
        }
    }

    /// A move where no work is left in the build or in a unit: it ends.
    fn close_turn<M: WriteMutations>(
        &mut self,
        first: Entry,
        sink: &mut M,
    ) -> Result<Option<u64>, Ended>
        ensures ok { IfOk result (λ turn. Took (M.taken sink.old) (M.taken sink.new)
            (M.faults sink.old) (M.faults sink.new) (taken_by turn)) }
        ensures err { IfErr result (λ ended. (limits : Limits) → Ends limits 0
            (M.taken sink.old) (M.taken sink.new) (M.faults sink.old) (M.faults sink.new) ended) }
        ensures turns { (app : Application
            (types A.Component A.Props A.Value A.Handler A.TaskState A.Effect A.Payload))
            → IsLawful _ app → (limits : _) (r : _) (edits : _) →
            first_in self.old ≡ Some (entry_of first) → self.old.work ≡ [] →
            StandsFor app limits r (Some (entry_of first)) edits self.old →
            TurnsAs app limits r edits
            (M.taken sink.old) (M.taken sink.new) self.old self.new result }
        ensures keeps { WorkKeeps self.old self.new result }
    {
        Ok(Some(self.close(first, sink)?))
    }

    /// A move where nothing is at work: a listener, or the begin of a unit.
    fn quiet_turn(
        &mut self,
        app: &A,
        calls: &mut Calls,
        limits: Limits,
    ) -> Result<Option<u64>, Ended>
        ensures ok { IfOk result (λ turn. taken_by turn ≡ 0) }
        ensures err { IfErr result (λ ended.
            (before after : ℕ) → Explains limits before after ended) }
        ensures turns { (r : _) (edits : _) → self.old.first ≡ None → self.old.work ≡ [] →
            StandsFor (A.meaning app.now) (limits_of limits) (counting r calls.old) None
            edits self.old →
            QuietAs (A.meaning app.now) (limits_of limits) (counting r calls.new) edits
            self.new result }
        ensures keeps { self.old.work ≡ [] → self.old.first ≡ None →
            TurnKeeps self.old self.new result }
        ensures uncalled { IfErr result (λ ended. (units : ℕ) →
            fault_in ended ≡ Some (OutOfTurns units) → calls.new ≡ calls.old) }
    {
        if self.hear(app, calls)? {
            return Ok(Some(0));
        }
        self.next_turn(app, calls, limits)
    }

    /// A move where nothing is at work and no listener waits: the begin of a unit, where one is
    /// owed.
    fn next_turn(
        &mut self,
        app: &A,
        calls: &mut Calls,
        limits: Limits,
    ) -> Result<Option<u64>, Ended>
        ensures ok { IfOk result (λ turn. taken_by turn ≡ 0) }
        ensures err { IfErr result (λ ended.
            (before after : ℕ) → Explains limits before after ended) }
        ensures turns { (r : _) (edits : _) → self.old.first ≡ None → self.old.work ≡ [] →
            StandsQuiet (A.meaning app.now) (limits_of limits) (counting r calls.old) edits
            self.old →
            QuietAs (A.meaning app.now) (limits_of limits) (counting r calls.new) edits
            self.new result }
        ensures keeps { self.old.work ≡ [] → self.old.first ≡ None →
            TurnKeeps self.old self.new result }
        ensures uncalled { IfErr result (λ ended. (units : ℕ) →
            fault_in ended ≡ Some (OutOfTurns units) → calls.new ≡ calls.old) }
    {
        // What comes next names what is live.
        due_is_any::<
            A::Component,
            A::Props,
            A::Value,
            A::Handler,
            A::TaskState,
            A::Effect,
            A::Payload,
        >();
        match self.scopes.state.next_work(self.scopes.alloc)? {
            Some(work) => {
                self.begin(app, calls, work, limits)?;
                Ok(Some(0))
            }
            None => Ok(None),
        }
    }
}
