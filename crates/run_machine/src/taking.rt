//! The build and the inputs that follow it, each with its report.
ghost use Rattle.std.specs.Prelude.{◌≡◌, ℕ, ◌+◌, ◌∷◌, [], None, map, IfOk, IfErr, OnOk};
ghost use Rattle.rt_model.specs.Reports.{OpensWith};
ghost use Rattle.rt_model.specs.Replay as replay;
ghost use Rattle.rt_model.specs.Replay.{first_state, ones, start, take_next};
ghost use Rattle.run_reports.specs.Seen.{entry_of, input_of, limits_of};
ghost use Rattle.run_state.specs.Mirror.{at_first, state_of};
ghost use Rattle.run_reports.specs.Counted.{CountsLog, edits_in};
ghost use Rattle.run_reports.specs.declared.entry.Entry.TheVariants as entries;
ghost use Rattle.run_outside.specs.Ends.{Took, Ends};
ghost use Rattle.run_outside.specs.Sofar.{Sofar};
ghost use Rattle.run_machine.specs.Machines.{IsFresh, machine_of};
ghost use Rattle.run_machine.specs.Stands.{Follows, ReportsAs};
ghost use Rattle.run_machine.specs.Runs.{Runs, StepsTo};

use crate::machine::Machine;
use author_calls::{App, Calls};
use rt_edits::WriteMutations;
use rt_values::{List, OutOfMemory};
use run_outside::{Ended, look_where_quiet, take_in};
use run_reports::{Entry, Input, Limits, Report};
use run_turns::sum;

impl<A: App> Machine<A> {
    /// The report of the build.
    pub fn first_report<M: WriteMutations>(
        &mut self,
        app: &A,
        calls: &mut Calls,
        limits: Limits,
        sink: &mut M,
    ) -> Result<Report, Ended>
        ensures opens { IfOk result (λ report.
            OpensWith (entry_of entries.Build) (map entry_of report.log)) }
        ensures counts { IfOk result (λ report. CountsLog report) }
        ensures took { IfOk result (λ report. Took (M.taken sink.old) (M.taken sink.new)
            (M.faults sink.old) (M.faults sink.new) report.edits) }
        ensures err { IfErr result (λ ended. Ends limits 0
            (M.taken sink.old) (M.taken sink.new) (M.faults sink.old) (M.faults sink.new) ended) }
        ensures reports { (props : _) (inputs : _) → IsFresh self.old →
            state_of at_first self.old.scopes.state
            ≡ first_state (A.meaning app.now).root props ones →
            ReportsAs (A.meaning app.now) (limits_of limits) (record {
              props = props;
              inputs = inputs;
              from = start (A.meaning app.now) props inputs;
              opened = replay.Build ∷ [];
              left = inputs;
              taken = 0;
              count = None;
            }) (M.taken sink.old) (M.taken sink.new) self.new result }
    {
        self.build(app, calls)?;
        let edits = self.settle(app, calls, limits, sink)?;
        Ok(self.report(Entry::Build, edits)?)
    }

    /// The report of an input, by its number from 1.
    pub fn next_report<M: WriteMutations>(
        &mut self,
        app: &A,
        calls: &mut Calls,
        number: u64,
        input: Input<A>,
        limits: Limits,
        sink: &mut M,
    ) -> Result<Report, Ended>
        ensures opens { IfOk result (λ report.
            OpensWith (entry_of (entries.Input number)) (map entry_of report.log)) }
        ensures counts { IfOk result (λ report. CountsLog report) }
        ensures took { IfOk result (λ report. Took (M.taken sink.old) (M.taken sink.new)
            (M.faults sink.old) (M.faults sink.new) report.edits) }
        ensures err { IfErr result (λ ended. Ends limits 0
            (M.taken sink.old) (M.taken sink.new) (M.faults sink.old) (M.faults sink.new) ended) }
        ensures reports { (props : _) (inputs : _) (left : _) (taken : ℕ) (last : _) →
            number ≡ taken + 1 →
            Follows (A.meaning app.now) (limits_of limits) props inputs
            (input_of input ∷ left) taken last self.old →
            ReportsAs (A.meaning app.now) (limits_of limits) (record {
              props = props;
              inputs = inputs;
              from = last;
              opened = replay.Taken number ∷ [];
              left = left;
              taken = number;
              count = None;
            }) (M.taken sink.old) (M.taken sink.new) self.new result }
    {
        self.receive(input)?;
        let edits = self.settle(app, calls, limits, sink)?;
        Ok(self.report(Entry::Input(number), edits)?)
    }

    /// Takes an input in and keeps its report. The number of inputs taken.
    pub fn take_one<M: WriteMutations>(
        &mut self,
        app: &A,
        calls: &mut Calls,
        taken: u64,
        input: Input<A>,
        limits: Limits,
        sink: &mut M,
        reports: &mut List<Report>,
    ) -> Result<u64, Ended>
        // Whatever inputs follow, the session goes on with them, or ends as it then does.
        ensures steps { (props : _) (inputs left : _) (before : _) →
            Runs (A.meaning app.now) (limits_of limits) props inputs before (M.taken sink.old)
            reports.old (input_of input ∷ left) taken self.old →
            Sofar inputs (input_of input ∷ left) taken reports.old →
            StepsTo (A.meaning app.now) (limits_of limits) props inputs left before
            (M.taken sink.new) reports.new self.new result }

        // The sink goes on having taken what the reports count.
        ensures took { OnOk result ((before : _) (faults : ℕ) →
            Took before (M.taken sink.old) faults (M.faults sink.old) (edits_in reports.old) →
            Took before (M.taken sink.new) faults (M.faults sink.new) (edits_in reports.new)) }
        ensures err { IfErr result (λ ended. (before : _) (faults : ℕ) →
            Took before (M.taken sink.old) faults (M.faults sink.old) (edits_in reports.old) →
            Ends limits (edits_in reports.new)
            before (M.taken sink.new) faults (M.faults sink.new) ended) }
    {
        let number = sum(taken, 1)?;
        let report = self.next_report(app, calls, number, input, limits, sink)?;
        reports.push(report)?;
        Ok(number)
    }

    /// Takes an input in. A look follows, unless a listener waits.
    pub fn receive(&mut self, input: Input<A>) -> Result<(), OutOfMemory>
        ensures received { OnOk result ((g : _) (left : _) (more : _) (taken : ℕ) →
            take_next (machine_of g left taken self.old) (input_of input ∷ more)
            ≡ machine_of g more (taken + 1) self.new) }
        ensures first { self.new.first ≡ self.old.first }
        ensures work { self.new.work ≡ self.old.work }
        ensures course { self.new.course ≡ self.old.course }
    {
        let alloc = self.scopes.alloc;
        self.units = 0;
        self.default_enabled = true;
        let hearing = self.hearing.take();
        self.hearing = take_in(alloc, &mut self.scopes.state, hearing, input)?;
        look_where_quiet(alloc, &mut self.scopes.state, &self.hearing)
    }
}
