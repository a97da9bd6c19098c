//! How an application carries what a library is made of.
ghost use Rattle.std.specs.Prelude.{◌≡◌, IfOk};

use author_bodies::{Bodied, Paged};
use rt_values::OutOfMemory;
use std::alloc::Global;
use tree_nodes::Parts;

/// An application with the parts of a library `L` among its own. Components, props and handlers of
/// the library are the application's to tell apart; of values and payloads the library asks what
/// they hold of its own.
pub trait Carries<L: Parts>: Parts {
    ghost use Rattle.rt_model.specs.OneLog.{types};
    ghost use Rattle.author_carrying.specs.Carrying.{Carrying};

    /// How it does: the record has the law that a value gives back what it was made to hold.
    ghost carrying: { Carrying
        (types L.Component L.Props L.Value L.Handler L.TaskState L.Effect L.Payload)
        (types Self.Component Self.Props Self.Value Self.Handler Self.TaskState Self.Effect Self.Payload) };

    /// A component of the library among the application's.
    fn component_of(component: L::Component) -> Self::Component
        ensures component { result ≡ carrying.component component };

    /// What such a component is given, among the application's props.
    fn props_of(props: L::Props) -> Self::Props
        ensures props { result ≡ carrying.props props };

    /// What a listener of the library does, among the application's handlers.
    fn handler_of(handler: L::Handler) -> Self::Handler
        ensures handler { result ≡ carrying.handler handler };

    /// The value that holds one of the library's.
    fn value_of(value: L::Value) -> Self::Value
        ensures value { result ≡ carrying.value value };

    /// The library's value that a value holds.
    fn held_in(value: Self::Value) -> Option<L::Value>
        ensures held { result ≡ carrying.held value };

    /// What a payload carries for the library.
    fn payload_in(alloc: Global, payload: &Self::Payload) -> Result<Option<L::Payload>, OutOfMemory>
        ensures payload { IfOk result (λ found. found ≡ carrying.payload payload.now) };
}

impl<L: Parts, B: Carries<L>> Carries<L> for Bodied<B> {
    ghost carrying = { B.carrying };

    fn component_of(component: L::Component) -> B::Component {
        B::component_of(component)
    }

    fn props_of(props: L::Props) -> B::Props {
        B::props_of(props)
    }

    fn handler_of(handler: L::Handler) -> B::Handler {
        B::handler_of(handler)
    }

    fn value_of(value: L::Value) -> B::Value {
        B::value_of(value)
    }

    fn held_in(value: B::Value) -> Option<L::Value> {
        B::held_in(value)
    }

    fn payload_in(alloc: Global, payload: &B::Payload) -> Result<Option<L::Payload>, OutOfMemory> {
        B::payload_in(alloc, payload)
    }
}

impl<L: Parts, S: Carries<L>> Carries<L> for Paged<S> {
    ghost use Rattle.author_carrying.specs.Carrying.{in_pages};

    ghost carrying = { in_pages S.carrying };

    fn component_of(component: L::Component) -> S::Component {
        S::component_of(component)
    }

    fn props_of(props: L::Props) -> S::Props {
        S::props_of(props)
    }

    fn handler_of(handler: L::Handler) -> S::Handler {
        S::handler_of(handler)
    }

    fn value_of(value: L::Value) -> S::Value {
        S::value_of(value)
    }

    fn held_in(value: S::Value) -> Option<L::Value> {
        S::held_in(value)
    }

    fn payload_in(alloc: Global, payload: &S::Payload) -> Result<Option<L::Payload>, OutOfMemory> {
        S::payload_in(alloc, payload)
    }
}
