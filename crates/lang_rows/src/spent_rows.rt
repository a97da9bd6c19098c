//! Worked rows of counters that are at their ends, or next to them.

ghost use Rattle.lang_rows.specs.SpentRows.{NoCellRow, OneCellRow, OneTaskRow, OneErrorRow, TwoElementsRow, OneScopeRow, RenderRow, NoContextRow};

/// No cell has a number.
pub fn spent_cells()
    ensures { NoCellRow }
{}

/// One cell has a number, the second has none.
pub fn one_cell_is_left()
    ensures { OneCellRow }
{}

/// One task has a number, the second has none.
pub fn one_task_is_left()
    ensures { OneTaskRow }
{}

/// One error has a serial number, the second has none.
pub fn one_error_is_left()
    ensures { OneErrorRow }
{}

/// Two nodes have numbers, the third has none.
pub fn two_elements_are_left()
    ensures { TwoElementsRow }
{}

/// One scope has a number after the build, the second has none; what was written before is taken.
pub fn one_scope_is_left()
    ensures { OneScopeRow }
{}

/// A render count at its end doesn't rise.
pub fn spent_renders()
    ensures { RenderRow }
{}

/// No reactive context has a number; or one has.
pub fn spent_contexts()
    ensures { NoContextRow }
{}
