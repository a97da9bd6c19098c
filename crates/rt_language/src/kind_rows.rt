//! Worked rows of what a table of the language says of a single case.

ghost use Rattle.rt_language.specs.KindRows.{KindRow, CaseRow, FirstUseRow, KeptValueRow, AbsentRow, ActionRow};

/// A hook keeps its kind, none, a cell and a task among the kinds.
pub fn kinds_of_hooks()
    ensures { KindRow }
{}

/// Truth, equality, numbers that are read, lists and picks in their odd cases.
pub fn single_cases()
    ensures { CaseRow }
{}

/// What makes a cell and spawns a task is evaluated at the first use alone.
pub fn first_uses()
    ensures { FirstUseRow }
{}

/// A hook binds the value that it kept; what is written to no cell is evaluated all the same.
pub fn kept_values()
    ensures { KeptValueRow }
{}

/// A provided none hides what is provided above it.
pub fn absent_value_is_provided()
    ensures { AbsentRow }
{}

/// An action has no render count and no task, and the number of its scope.
pub fn actions_know_no_generation()
    ensures { ActionRow }
{}
