//! An event on its way through the listeners that hear it.
use crate::awaiting::Awaiting;
use author_calls::App;
use run_shown::Listener;
use tree_nodes::Event;

/// An event on its way through the listeners.
#[derive(Drop)]
pub struct Hearing<A: App> {
    pub event: Event<A::Payload>,
    pub bubbles: bool,
    /// Those that wait, in order; some may be of scopes that are gone.
    pub listeners: Awaiting<Listener<A>>,
}
