//! A session under way: the state of the scopes with what is open beside it.
ghost use Rattle.std.specs.Prelude.{◌≡◌, ◌++◌, ◌∷◌, [], reverse, map, IfOk, OnOk};
ghost use Rattle.rt_model.specs.Reports.{OpensWith};
ghost use Rattle.rt_model.specs.Replay.{first_state, ones};
ghost use Rattle.run_reports.specs.Seen.{entry_of};
ghost use Rattle.run_reports.specs.Counted.{CountsLog};
ghost use Rattle.run_state.specs.Mirror.{at_first, state_of};
ghost use Rattle.run_machine.specs.Machines.{IsFresh};

use author_calls::{App, Calls};
use rt_scopes::Scopes;
use rt_values::{List, OutOfMemory};
use run_outside::Hearing;
use run_records::Firsts;
use run_reports::{Entry, Report, bodies_in, units_in};
use run_shown::{Remembered, Stood};
use run_turns::Course;
use run_work::Item;
use std::alloc::Global;
use std::mem;

/// The number that each counter draws first.
const FIRST: u64 = 1;

/// A session under way.
#[derive(Drop)]
pub struct Machine<A: App> {
    pub scopes: Scopes<A>,
    /// The open work. The last item is served first.
    pub work: List<Item<A>>,
    pub hearing: Option<Hearing<A>>,
    /// The entry that began the build or the unit at work.
    pub first: Option<Entry>,
    /// What the scopes that a rerun has changed were before it, with none for each that it made.
    pub stood: Remembered<Stood<A>>,
    /// How many scopes were live before it.
    pub lived: u64,
    /// Of the report on its way: its entries after the first, its units, and whether no listener
    /// prevented the default.
    pub course: Course,
    pub units: u64,
    pub default_enabled: bool,
}

/// Puts items on a stack, so that the first one is taken first.
pub(crate) fn stack<T: Drop>(onto: &mut List<T>, items: List<T>) -> Result<(), OutOfMemory>
    ensures { OnOk result (onto.new ≡ onto.old ++ reverse items) }
{
    if items.is_empty() {
        return Ok(());
    }
    let mut items = items.into_vec();
    items.reverse();
    onto.append(List::from_vec(items))
}

impl<A: App> Machine<A> {
    /// A session at its start: the root wrapper alone, not yet run, and no call counted.
    pub fn start(
        alloc: Global,
        app: &A,
        props: A::Props,
    ) -> Result<(Machine<A>, Calls), OutOfMemory>
        ensures fresh { IfOk result (λ made. IsFresh made.0) }
        ensures state { IfOk result (λ made. state_of at_first made.0.scopes.state
            ≡ first_state (A.meaning app.now).root props ones) }
        ensures uncalled { IfOk result (λ made. made.1 ≡ 0) }
    {
        let firsts = Firsts {
            tasks: FIRST,
            cells: FIRST,
            contexts: FIRST,
            elements: FIRST,
            errors: FIRST,
        };
        Machine::start_from(alloc, app, props, firsts)
    }

    /// The report of what was done since the last one, opened by an entry, with so many edits.
    pub fn report(&mut self, first: Entry, edits: u64) -> Result<Report, OutOfMemory>
        ensures opens { IfOk result (λ report.
            OpensWith (entry_of first) (map entry_of report.log)) }
        ensures counts { IfOk result (λ report. CountsLog report) }
        ensures edits { IfOk result (λ report. report.edits ≡ edits) }
        ensures log { IfOk result (λ report. report.log ≡ first ∷ self.old.course.entries) }
        ensures default_enabled { IfOk result (λ report.
            report.default_enabled ≡ self.old.default_enabled) }
        ensures others { self.new ≡ record self.old { course = self.new.course } }
        ensures course { self.new.course.entries ≡ [] }
    {
        let alloc = self.scopes.alloc;
        let course = mem::replace(&mut self.course, Course::new(alloc));
        let log = course.opened_by(alloc, first)?;
        let units = units_in(log.as_slice());
        let bodies = bodies_in(log.as_slice());
        Ok(Report {
            log,
            units,
            bodies,
            edits,
            default_enabled: self.default_enabled,
        })
    }
}
