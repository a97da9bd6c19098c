//! What the calls of a program take of a machine: a start from given numbers, and a report that no
//! entry opens.

ghost use Rattle.std.specs.Prelude.{◌≡◌, [], IfOk};
ghost use Rattle.run_records.specs.Records.{firsts_of};
ghost use Rattle.rt_model.specs.Replay.{first_state};
ghost use Rattle.run_reports.specs.Counted.{CountsLog};
ghost use Rattle.run_state.specs.Mirror.{at_first, state_of};
ghost use Rattle.run_machine.specs.Machines.{IsFresh};

use crate::machine::Machine;
use author_calls::{App, Calls};
use rt_scopes::Scopes;
use rt_values::{List, OutOfMemory};
use run_records::Firsts;
use run_reports::{Report, bodies_in, units_in};
use run_shown::Remembered;
use run_turns::Course;
use std::alloc::Global;
use std::mem;

impl<A: App> Machine<A> {
    /// A machine at its start whose counters begin at these numbers.
    pub fn start_from(
        alloc: Global,
        app: &A,
        props: A::Props,
        firsts: Firsts,
    ) -> Result<(Machine<A>, Calls), OutOfMemory>
        ensures fresh { IfOk result (λ made. IsFresh made.0) }
        ensures state { IfOk result (λ made. state_of at_first made.0.scopes.state
            ≡ first_state (A.meaning app.now).root props (firsts_of firsts)) }
        ensures uncalled { IfOk result (λ made. made.1 ≡ 0) }
    {
        let root = app.root(alloc)?;
        let (mut scopes, calls) = Scopes::new(alloc, firsts)?;
        scopes.state.add_root(alloc, root, props)?;
        let machine = Machine {
            scopes,
            work: List::new(alloc),
            hearing: None,
            first: None,
            stood: Remembered::new(),
            lived: 0,
            course: Course::new(alloc),
            units: 0,
            default_enabled: true,
        };
        Ok((machine, calls))
    }

    /// The report of what was done in a call that no entry opens, with so many edits.
    pub fn report_of(&mut self, edits: u64) -> Report
        ensures counts { CountsLog result }
        ensures edits { result.edits ≡ edits }
        ensures log { result.log ≡ self.old.course.entries }
        ensures default_enabled { result.default_enabled ≡ self.old.default_enabled }
        ensures others { self.new ≡ record self.old { course = self.new.course } }
        ensures course { self.new.course.entries ≡ [] }
    {
        let alloc = self.scopes.alloc;
        let Course { entries: log } = mem::replace(&mut self.course, Course::new(alloc));
        let units = units_in(log.as_slice());
        let bodies = bodies_in(log.as_slice());
        Report {
            log,
            units,
            bodies,
            edits,
            default_enabled: self.default_enabled,
        }
    }
}
