//! A session whose inputs come one by one, and of whose past nothing is kept.
ghost use Rattle.std.specs.Prelude.{◌≡◌, ◌≤◌, ◌+◌, map, IfOk, IfErr, OnOk};
ghost use Rattle.law_headline.specs.Sessions.{SessionsHold};
ghost use Rattle.run_ongoing.specs.Ongoings.{AwaitsMore, BeginsAs, Begun, Carries, TakenIn, TakesOne, number_of};
ghost use Rattle.run_outside.specs.Ends.{Causes, Ends, Took};
ghost use Rattle.run_outside.specs.Sessions.{Headlined};
ghost use Rattle.run_reports.specs.Seen.{input_of, limits_of, report_of};

use author_calls::{App, Calls};
use law_headline::sessions_hold;
use rt_edits::WriteMutations;
use run_machine::Machine;
use run_outside::Ended;
use run_reports::{Fault, Input, Limits, Report};
use run_turns::sum;
use std::alloc::Global;

/// A built session that takes in one input after another. It keeps its application and what shows,
/// and neither an input nor a report nor an edit.
#[derive(Drop)]
pub struct Ongoing<A: App> {
    app: A,
    machine: Machine<A>,
    calls: Calls,
    limits: Limits,
    /// How many inputs were taken in.
    taken: u64,
}

impl<A: App> Ongoing<A> {
    /// Builds an application and settles. The session, and the report of the build.
    pub fn begin<M: WriteMutations>(
        alloc: Global,
        app: A,
        root_props: A::Props,
        limits: Limits,
        sink: &mut M,
    ) -> Result<(Ongoing<A>, Report), Fault>
        ensures begins { BeginsAs (λ app. A.meaning app) (A.meaning app) limits root_props
            (M.taken sink.old) (M.taken sink.new) result }

        ensures none { IfOk result (λ made. number_of made.0 ≡ 0) }

        // The sink took so many edits as the report counts. A fault comes for its cause.
        ensures took { IfOk result (λ made. Took (M.taken sink.old) (M.taken sink.new)
            (M.faults sink.old) (M.faults sink.new) made.1.edits) }
        ensures refused { IfErr result (λ fault.
            Causes limits (M.faults sink.old) (M.faults sink.new) fault) }
        ensures counted { M.faults sink.old ≤ M.faults sink.new }
    {
        // What a session came to, each fault but want of memory and one of the sink, is the
        // headline's for the reports that were finished.
        laws_of(&app);
        match Ongoing::build(alloc, app, root_props, limits, sink) {
            Ok(made) => Ok(made),
            Err(ended) => Err(ended.fault()),
        }
    }

    /// The same, by why it ends early.
    fn build<M: WriteMutations>(
        alloc: Global,
        app: A,
        root_props: A::Props,
        limits: Limits,
        sink: &mut M,
    ) -> Result<(Ongoing<A>, Report), Ended>
        ensures begins { Begun (λ app. A.meaning app) (A.meaning app) limits root_props
            (M.taken sink.old) (M.taken sink.new) result }
        ensures none { IfOk result (λ made. number_of made.0 ≡ 0) }
        ensures took { IfOk result (λ made. Took (M.taken sink.old) (M.taken sink.new)
            (M.faults sink.old) (M.faults sink.new) made.1.edits) }
        ensures err { IfErr result (λ ended. Ends limits 0
            (M.taken sink.old) (M.taken sink.new) (M.faults sink.old) (M.faults sink.new) ended) }
    {
        let (mut machine, mut calls) = Machine::start(alloc, &app, root_props)?;
        let built = machine.first_report(&app, &mut calls, limits, sink)?;
        let session = Ongoing {
            app,
            machine,
            calls,
            limits,
            taken: 0,
        };
        Ok((session, built))
    }

    /// Takes an input in and settles. Its report. The sink may be that of the inputs before, or
    /// another one.
    pub fn take<M: WriteMutations>(
        &mut self,
        input: Input<A>,
        sink: &mut M,
    ) -> Result<Report, Fault>
        // Whatever inputs and reports were before, with the edits that were told so far.
        ensures takes { (app : _) (limits : _) (props : _) (inputs : _) (before now after : _)
            (reports : _) →
            AwaitsMore (λ app. A.meaning app) app limits props inputs before now reports self.old →
            Carries (M.taken sink.old) (M.taken sink.new) now after →
            TakesOne (λ app. A.meaning app) app limits props inputs (input_of input) before after
            reports self.new result }
        ensures number { OnOk result (number_of self.new ≡ number_of self.old + 1) }
        ensures took { IfOk result (λ report. Took (M.taken sink.old) (M.taken sink.new)
            (M.faults sink.old) (M.faults sink.new) report.edits) }
        ensures refused { IfErr result (λ fault.
            Causes self.old.limits (M.faults sink.old) (M.faults sink.new) fault) }
        ensures counted { M.faults sink.old ≤ M.faults sink.new }
    {
        laws_of(&self.app);
        match self.take_in(input, sink) {
            Ok(report) => Ok(report),
            Err(ended) => Err(ended.fault()),
        }
    }

    /// The same, by why it ends early.
    fn take_in<M: WriteMutations>(&mut self, input: Input<A>, sink: &mut M) -> Result<Report, Ended>
        ensures takes { (app : _) (limits : _) (props : _) (inputs : _) (before now after : _)
            (reports : _) →
            AwaitsMore (λ app. A.meaning app) app limits props inputs before now reports self.old →
            Carries (M.taken sink.old) (M.taken sink.new) now after →
            TakenIn (λ app. A.meaning app) app limits props inputs (input_of input) before after
            reports self.new result }
        ensures number { OnOk result (number_of self.new ≡ number_of self.old + 1) }
        ensures took { IfOk result (λ report. Took (M.taken sink.old) (M.taken sink.new)
            (M.faults sink.old) (M.faults sink.new) report.edits) }
        ensures err { IfErr result (λ ended. Ends self.old.limits 0
            (M.taken sink.old) (M.taken sink.new) (M.faults sink.old) (M.faults sink.new) ended) }
    {
        let number = sum(self.taken, 1)?;
        let report = self.machine.next_report(
            &self.app,
            &mut self.calls,
            number,
            input,
            self.limits,
            sink,
        )?;
        self.taken = number;
        Ok(report)
    }

    /// How many inputs were taken in.
    pub fn taken(&self) -> u64
        ensures taken { result ≡ number_of self.now }
    {
        self.taken
    }

    /// At each time the headline holds of the inputs that were taken in.
    pub fn holds(&self)
        ensures headline { (app : _) (limits : _) (props : _) (inputs : _) (before now : _)
            (reports : _) →
            AwaitsMore (λ app. A.meaning app) app limits props inputs before now reports self.now →
            Headlined app props inputs (limits_of limits) before now (map report_of reports) }
    {
        laws_of(&self.app);
    }
}

/// The law of sessions, of an application.
fn laws_of<A: App>(app: &A)
    ensures { SessionsHold (A.meaning app.now) }
{
    sessions_hold::<
        A::Component,
        A::Props,
        A::Value,
        A::Handler,
        A::TaskState,
        A::Effect,
        A::Payload,
    >();
}
