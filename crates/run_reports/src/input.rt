//! What reaches a session from outside.

use rt_inbox::Msg;
use rt_values::{ElementId, List, ScopeId, Task, Text};
use tree_nodes::Parts;

/// One input of a session.
#[derive(Drop)]
pub enum Input<P: Parts> {
    /// An event at an element. One that bubbles is heard by the elements further out, too.
    Event {
        name: Text,
        payload: P::Payload,
        element: ElementId,
        bubbles: bool,
    },
    /// Wakes a task.
    Wake(Task),
    /// Puts a value in a cell.
    Write {
        cell: u64,
        value: P::Value,
    },
    /// Marks a scope.
    Mark(ScopeId),
    /// Messages that were drained, in order.
    Drain(List<Msg>),
}
