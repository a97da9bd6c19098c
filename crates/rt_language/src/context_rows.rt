//! Worked rows of contexts.

ghost use Rattle.rt_language.specs.ContextRows.{FragmentContextRow, ContextRow, TrackedRow, NearerRow};

/// A context goes through a fragment.
pub fn context_through_a_fragment()
    ensures { FragmentContextRow }
{}

/// A context goes to a child.
pub fn context_of_a_child()
    ensures { ContextRow }
{}

/// A context that changes reruns the body that looked it up.
pub fn context_is_tracked()
    ensures { TrackedRow }
{}

/// A scope on the way of a look-up begins to provide.
pub fn nearer_provider()
    ensures { NearerRow }
{}
