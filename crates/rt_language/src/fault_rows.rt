//! Worked rows that end in a fault.

ghost use Rattle.rt_language.specs.FaultRows.{SpentRow, TooDeepRow, DeepRow, HookRow, EndedTaskRow, BadNodeRow};

/// Where a body marks itself at each run the units are spent, and one more is owed.
pub fn units_are_spent()
    ensures { SpentRow }
{}

/// A make above the greatest height is refused, and a refused build has no edit.
pub fn too_deep_a_make()
    ensures { TooDeepRow }
{}

/// The same tree within its height.
pub fn as_deep_as_allowed()
    ensures { DeepRow }
{}

/// A hook of another kind at an index is refused.
pub fn hook_changes_kind()
    ensures { HookRow }
{}

/// A body that suspends on a task that has ended is refused.
pub fn suspends_on_an_ended_task()
    ensures { EndedTaskRow }
{}

/// A tree with one name twice on an element is refused.
pub fn name_stands_twice()
    ensures { BadNodeRow }
{}
