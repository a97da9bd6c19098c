//! An event on its way calls the listeners that hear it.
ghost use Rattle.std.specs.Prelude.{◌≡◌, false, None, Some, IfOk, OnOk};
ghost use Rattle.author_calls.specs.Answers.{event_of};
ghost use Rattle.run_shown.specs.Hearing.{listener_in, listeners_of};
ghost use Rattle.run_turns.specs.Counting.{CountsListener};
ghost use Rattle.run_machine.specs.Machines.{CallsListener, CountsHeard, Hears, machine_of};

use crate::machine::Machine;
use author_calls::{App, Calls};
use rt_values::ScopeId;
use run_outside::{Awaiting, Hearing, first_waiting, further, look_where_quiet};
use run_reports::Entry;
use run_shown::Listener;
use run_state::Stop;
use tree_nodes::Event;

impl<A: App> Machine<A> {
    /// Calls the first listener that waits with the event on its way. False where none waits.
    pub fn hear(&mut self, app: &A, calls: &mut Calls) -> Result<bool, Stop>
        ensures hears { Hears (A.meaning app.now) self.old self.new result }
        ensures counted { IfOk result (λ was_heard.
            CountsHeard (A.meaning app.now) self.old calls.old calls.new was_heard) }
        ensures first { self.new.first ≡ self.old.first }
        ensures work { self.new.work ≡ self.old.work }
        ensures silent { self.old.hearing ≡ None → self.new ≡ self.old }
        ensures passed { IfOk result (λ was_heard. was_heard ≡ false →
            self.new ≡ record self.old { hearing = self.new.hearing }) }
    {
        let alloc = self.scopes.alloc;
        let Some(hearing) = self.hearing.take() else {
            return Ok(false);
        };
        let Hearing {
            event,
            bubbles,
            listeners,
        } = hearing;
        let mut listeners = listeners;
        match first_waiting(alloc, &self.scopes.state, &mut listeners)? {
            Some(listener) => {
                self.call(app, calls, &listener, event, bubbles, listeners)?;
                Ok(true)
            }
            None => {
                self.hearing = Some(Hearing {
                    event,
                    bubbles,
                    listeners,
                });
                Ok(false)
            }
        }
    }

    /// Calls a listener. The others are heard further, unless a bubbling event was stopped.
    fn call(
        &mut self,
        app: &A,
        calls: &mut Calls,
        listener: &Listener<A>,
        event: Event<A::Payload>,
        bubbles: bool,
        others: Awaiting<Listener<A>>,
    ) -> Result<(), Stop>
        ensures calls { CallsListener (A.meaning app.now) self.old listener.now event bubbles
            others self.new result }
        ensures counted { OnOk result ((g : _) (left : _) (taken : _) (all : _) →
            CountsListener (A.meaning app.now) (record (machine_of g left taken self.old) {
              listeners = all;
              event = Some (event_of event);
              bubbles = bubbles;
            }) (listener_in listener.now) (listeners_of others) calls.old calls.new) }
        ensures first { self.new.first ≡ self.old.first }
        ensures work { self.new.work ≡ self.old.work }
    {
        let alloc = self.scopes.alloc;
        let mut event = event;
        self.course.note(Entry::Heard(ScopeId(listener.origin)))?;
        self.scopes.call_handler(
            app,
            calls,
            ScopeId(listener.origin),
            &listener.handler,
            &mut event,
        )?;
        self.default_enabled = !event.prevented;
        let listeners = further(alloc, bubbles, &event, others);
        self.hearing = Some(Hearing {
            event,
            bubbles,
            listeners,
        });
        look_where_quiet(alloc, &mut self.scopes.state, &self.hearing)?;
        Ok(())
    }
}
