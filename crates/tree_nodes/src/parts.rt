//! The types that an application brings along.

use rt_values::Part;

/// The types of an application, over which the trees are generic.
pub trait Parts: Drop {
    /// Names a component.
    type Component: Part;

    /// What a component is given.
    type Props: Part;

    /// What cells, hooks and contexts hold.
    type Value: Part;

    /// What a listener runs.
    type Handler: Part;

    /// The state of a task between two polls.
    type TaskState: Drop;

    /// What an effect runs.
    type Effect: Part;

    /// What an event carries.
    type Payload: Part;
}
