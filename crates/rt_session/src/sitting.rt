//! A session whose inputs are drains that come one by one.
ghost use Rattle.std.specs.Prelude.{◌≡◌, ◌<◌, ◌≤◌, length, IfOk};
ghost use Rattle.rt_session.specs.Sittings.{AddsMessage, Awaits, IsUnbuilt, KeepsAll, KeepsDrain, KeepsMessages, TakesIn};

use author_calls::{App, Calls};
use rt_edits::WriteMutations;
use rt_inbox::Msg;
use rt_values::{List, OutOfMemory, Part};
use run_machine::Machine;
use run_outside::Ended;
use run_reports::{Input, Limits, Report};
use std::alloc::Global;
use std::mem;

/// A session whose inputs are drains.
#[derive(Drop)]
pub(crate) struct Sitting<A: App> {
    pub machine: Machine<A>,
    pub calls: Calls,
    /// How many drains were taken in.
    pub taken: u64,
    pub drains: List<List<Msg>>,
    pub reports: List<Report>,
}

impl<A: App> Sitting<A> {
    /// A session that isn't built yet.
    pub fn begin(alloc: Global, app: &A, root_props: A::Props) -> Result<Sitting<A>, OutOfMemory>
        ensures unbuilt { IfOk result (IsUnbuilt (A.meaning app.now) root_props) }
    {
        let (machine, calls) = Machine::start(alloc, app, root_props)?;
        Ok(Sitting {
            machine,
            calls,
            taken: 0,
            drains: List::new(alloc),
            reports: List::new(alloc),
        })
    }

    /// Builds and settles.
    pub fn build<M: WriteMutations>(
        &mut self,
        app: &A,
        sink: &mut M,
        limits: Limits,
    ) -> Result<(), Ended>
        ensures takes { (props : _) → IsUnbuilt (A.meaning app.now) props self.old →
            TakesIn (A.meaning app.now) limits props (M.taken sink.old) (M.faults sink.old)
            (M.taken sink.new) (M.faults sink.new) self.new result }
        ensures drains { self.new.drains ≡ self.old.drains }
    {
        let built = self
            .machine
            .first_report(app, &mut self.calls, limits, sink)?;
        self.reports.push(built)?;
        Ok(())
    }

    /// Keeps a drain, takes its messages in and settles.
    pub fn take<M: WriteMutations>(
        &mut self,
        alloc: Global,
        app: &A,
        messages: List<Msg>,
        sink: &mut M,
        limits: Limits,
    ) -> Result<(), Ended>
        requires some { 1 ≤ length messages }
        requires few { length messages ≤ limits.drain }
        ensures takes { (props : _) (before : _) (faults : _) →
            Awaits (A.meaning app.now) limits props before faults
            (M.taken sink.old) (M.faults sink.old) self.old →
            TakesIn (A.meaning app.now) limits props before faults
            (M.taken sink.new) (M.faults sink.new) self.new result }
        ensures keeps { KeepsDrain self.old.drains self.new.drains messages result }
    {
        let kept = messages.copy(alloc)?;
        self.drains.push(kept)?;
        self.taken = self.machine.take_one(
            app,
            &mut self.calls,
            self.taken,
            Input::Drain(messages),
            limits,
            sink,
            &mut self.reports,
        )?;
        Ok(())
    }

    /// Takes in what a drain took, if it took any message.
    pub fn take_drained<M: WriteMutations>(
        &mut self,
        alloc: Global,
        app: &A,
        messages: List<Msg>,
        sink: &mut M,
        limits: Limits,
    ) -> Result<(), Ended>
        requires few { length messages ≤ limits.drain }
        ensures takes { (props : _) (before : _) (faults : _) →
            Awaits (A.meaning app.now) limits props before faults
            (M.taken sink.old) (M.faults sink.old) self.old →
            TakesIn (A.meaning app.now) limits props before faults
            (M.taken sink.new) (M.faults sink.new) self.new result }
        ensures keeps { KeepsMessages self.old.drains self.new.drains messages result }
    {
        if messages.is_empty() {
            return Ok(());
        }
        self.take(alloc, app, messages, sink, limits)
    }

    /// Puts a message behind a piece, and takes the piece in where that makes it full.
    fn add<M: WriteMutations>(
        &mut self,
        alloc: Global,
        app: &A,
        piece: &mut List<Msg>,
        message: Msg,
        sink: &mut M,
        limits: Limits,
    ) -> Result<(), Ended>
        requires short { length piece.old < limits.drain }
        ensures takes { (props : _) (before : _) (faults : _) →
            Awaits (A.meaning app.now) limits props before faults
            (M.taken sink.old) (M.faults sink.old) self.old →
            TakesIn (A.meaning app.now) limits props before faults
            (M.taken sink.new) (M.faults sink.new) self.new result }
        ensures adds { AddsMessage limits.drain self.old.drains self.new.drains
            piece.old piece.new message result }
    {
        piece.push(message)?;
        if (piece.len() as u64) < limits.drain {
            return Ok(());
        }
        let full = mem::replace(piece, List::new(alloc));
        self.take(alloc, app, full, sink, limits)
    }

    /// Takes in messages that were left, at most as many at a time as one drain takes.
    pub fn take_left<M: WriteMutations>(
        &mut self,
        alloc: Global,
        app: &A,
        left: &[Msg],
        sink: &mut M,
        limits: Limits,
    ) -> Result<(), Ended>
        requires drain { 1 ≤ limits.drain }
        ensures takes { (props : _) (before : _) (faults : _) →
            Awaits (A.meaning app.now) limits props before faults
            (M.taken sink.old) (M.faults sink.old) self.old →
            TakesIn (A.meaning app.now) limits props before faults
            (M.taken sink.new) (M.faults sink.new) self.new result }
        ensures keeps { KeepsAll self.old.drains self.new.drains left.now result }
    {
        let mut piece = List::new(alloc);
        for message in left {
            self.add(alloc, app, &mut piece, *message, sink, limits)?;
        }
        self.take_drained(alloc, app, piece, sink, limits)
    }
}
