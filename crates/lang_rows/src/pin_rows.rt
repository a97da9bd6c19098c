//! Worked rows of what a run's start, a removal, a turn and a refusal take and leave.

ghost use Rattle.lang_rows.specs.PinRows.{PostedMarkRow, TwoCleanUpsRow, LentCellRow, CallbackOnceRow, FinishedThenDeepRow, FinishedThenHookRow, InnerAttributesRow, SpentAtTheEndRow, OtherNameRow};

/// A mark that is posted when its scope is fed goes at the run's start.
pub fn a_posted_mark_goes()
    ensures { PostedMarkRow }
{}

/// The commands of all clean-ups of a scope are done.
pub fn all_clean_ups_are_done()
    ensures { TwoCleanUpsRow }
{}

/// A cell goes with its scope, and its readers are told.
pub fn cells_go_and_are_told()
    ensures { LentCellRow }
{}

/// A callback is taken off before it is called.
pub fn callbacks_are_taken_off()
    ensures { CallbackOnceRow }
{}

/// The edits of a finished unit are taken before a make that is too deep.
pub fn finished_units_before_a_depth()
    ensures { FinishedThenDeepRow }
{}

/// The edits of a finished unit are taken before a fault in a child.
pub fn finished_units_before_a_hook()
    ensures { FinishedThenHookRow }
{}

/// The attributes of all elements of a block come before its node slots.
pub fn attributes_of_inner_elements()
    ensures { InnerAttributesRow }
{}

/// Units are spent only where the agenda of a unit is done.
pub fn units_are_spent_at_an_end()
    ensures { SpentAtTheEndRow }
{}

/// An event that doesn't bubble calls no listener of another name.
pub fn other_names_are_not_heard()
    ensures { OtherNameRow }
{}
