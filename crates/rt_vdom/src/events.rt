//! Events.

ghost use Rattle.std.specs.Prelude.{◌≡◌, IfErr};
ghost use Rattle.rt_vdom.specs.Calls.{CausesAt, FailsOn, Keeps, RanNoUnit, WantsBuilt};
ghost use Rattle.rt_vdom.specs.Handles.{Handles};

use crate::dom::VirtualDom;
use author_calls::App;
use rt_values::{ElementId, OutOfMemory, Text};
use run_answers::{DomFault, Stage};
use run_outside::Ended;
use run_rounds::handle;
use tree_nodes::Event;

impl<A: App> VirtualDom<A> {
    /// Calls the listeners that hear an event at an element: where it propagates from the element
    /// outwards until one stops it, else those of the element alone. The event as the last one left
    /// it. Refused of a dom that isn't built or has failed, which stays as it was; after a fault of
    /// a listener's call and after want of memory it has failed. In dioxus-core the runtime's
    /// `handle_event`, which takes data and a flag and answers nothing.
    pub fn handle_event(
        &mut self,
        name: &str,
        event: Event<A::Payload>,
        element: ElementId,
    ) -> Result<Event<A::Payload>, DomFault>
        ensures handles { Handles (λ app. A.meaning app) name.now event element.0
            self.old self.new result }
        ensures refused { WantsBuilt RanNoUnit self.old self.new result }
        ensures owned { Keeps self.old self.new }
        ensures fails { FailsOn self.new result }
        ensures caused { IfErr result (λ fault. CausesAt self.old.limits 0 0 fault) }
    {
        match self.stage {
            Stage::Failed => Err(DomFault::Failed),
            Stage::Fresh => Err(DomFault::NotBuilt),
            Stage::Built => match Text::from_str(self.machine.scopes.alloc, name) {
                Ok(name) => self.hear(&name, event, element),
                Err(OutOfMemory) => Err(self.out_of_memory()),
            },
        }
    }

    /// Calls the listeners that hear an event whose name is a text.
    fn hear(
        &mut self,
        name: &Text,
        event: Event<A::Payload>,
        element: ElementId,
    ) -> Result<Event<A::Payload>, DomFault>
        ensures handles { Handles (λ app. A.meaning app) name.now event element.0
            self.old self.new result }
        ensures refused { IfErr result (λ fault. RanNoUnit fault) }
        ensures owned { Keeps self.old self.new }
        ensures fails { self.old.stage ≡ Stage.Built → FailsOn self.new result }
        ensures caused { IfErr result (λ fault. CausesAt self.old.limits 0 0 fault) }
    {
        match handle(
            &mut self.machine,
            &self.app,
            &mut self.calls,
            name,
            event,
            element,
        ) {
            Ok(event) => Ok(event),
            Err(stop) => Err(self.ended(Ended::Run(stop))),
        }
    }
}
