//! Worked rows of trees.

ghost use Rattle.rt_language.specs.TreeRows.{DressRow, BubbleRow, ShrinkRow, LoneSlotRow, OriginRow, ClearRow, NamespaceRow};

/// What an attribute slot no longer gives goes first, then what is new comes.
pub fn attributes_become_listeners()
    ensures { DressRow }
{}

/// An event at a text bubbles out of a child, with its payload.
pub fn event_bubbles_out_of_a_child()
    ensures { BubbleRow }
{}

/// A fragment of several nodes an item shrinks and grows.
pub fn fragment_of_several_nodes()
    ensures { ShrinkRow }
{}

/// Equal templates are equal across forms.
pub fn lone_slots_are_alike()
    ensures { LoneSlotRow }
{}

/// A listener belongs to the scope whose body made it.
pub fn origin_of_a_listener()
    ensures { OriginRow }
{}

/// Clearing an empty error slot marks its readers.
pub fn clears_an_empty_slot()
    ensures { ClearRow }
{}

/// A namespace stands before its tag, and a text is quoted.
pub fn namespace_and_quotes()
    ensures { NamespaceRow }
{}
