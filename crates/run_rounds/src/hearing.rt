//! An event on its way through those that hear it.

ghost use Rattle.std.specs.Prelude.{◌≡◌, []};
ghost use Rattle.run_machine.specs.Machines.{machine_of, noted};
ghost use Rattle.run_rounds.specs.Handled.{HeardSo, HearsAll, HearsOn};
ghost use Rattle.run_rounds.specs.Rounds.{RestsAt};
ghost use Rattle.rt_scopes.specs.Counts.{Counts};

use author_calls::{App, Calls};
use rt_values::{ElementId, Text};
use run_machine::Machine;
use run_outside::{Hearing, hearers};
use run_state::Stop;
use tree_nodes::Event;

/// Calls the listeners of an event at an element one after another, as long as one waits. The event
/// as the last one left it.
pub fn handle<A: App>(
    machine: &mut Machine<A>,
    app: &A,
    calls: &mut Calls,
    name: &Text,
    event: Event<A::Payload>,
    element: ElementId,
) -> Result<Event<A::Payload>, Stop>
    // At a machine at rest an event comes to those that hear it.
    ensures hears { (w : _) → RestsAt w machine.old calls.old →
        HearsOn (A.meaning app.now) w name.now event.payload element.0 event.propagates
        event.prevented result machine.new calls.new }
{
    let bubbles = event.propagates;
    let listeners = hearers(
        machine.scopes.alloc,
        &machine.scopes.state,
        name,
        element,
        bubbles,
    )?;
    machine.units = 0;
    machine.default_enabled = true;
    machine.hearing = Some(Hearing {
        event,
        bubbles,
        listeners,
    });
    hear_all(machine, app, calls)?;
    // No report tells of an event.
    let _told = machine.report_of(0);
    match machine.hearing.take() {
        Some(heard) => Ok(heard.event),
        None => Err(Stop::OutOfMemory),
    }
}

/// Calls listeners as long as one waits.
fn hear_all<A: App>(machine: &mut Machine<A>, app: &A, calls: &mut Calls) -> Result<(), Stop>
    ensures hears { (from : _) (g : _) →
        HeardSo (A.meaning app.now) from (noted machine.old) (machine_of g [] 0 machine.old) →
        Counts calls.old g.calls → HearsAll (A.meaning app.now) from machine.new calls.new result }
    ensures first { machine.new.first ≡ machine.old.first }
    ensures work { machine.new.work ≡ machine.old.work }
{
    for _listener in 0..u64::MAX {
        let heard = machine.hear(app, calls)?;
        if !heard {
            return Ok(());
        }
    }
    Err(Stop::OutOfMemory)
}
