//! Worked rows of fragments, of events, and of inputs that change nothing.

ghost use Rattle.rt_language.specs.EventRows.{FragmentRow, ToDoRow, EventRow, StoppedRow, AllDirtyRow, NamelessRow};

/// A fragment of three items, of none, of two.
pub fn fragment_empties_and_fills()
    ensures { FragmentRow }
{}

/// A button adds an item to a list.
pub fn to_do_list()
    ensures { ToDoRow }
{}

/// Which listeners hear which events.
pub fn events_bubble()
    ensures { EventRow }
{}

/// An event that the inner listener stops isn't heard further out.
pub fn event_is_stopped()
    ensures { StoppedRow }
{}

/// A message marks all scopes.
pub fn all_are_marked()
    ensures { AllDirtyRow }
{}

/// Inputs that name nothing change nothing.
pub fn inputs_name_nothing()
    ensures { NamelessRow }
{}
