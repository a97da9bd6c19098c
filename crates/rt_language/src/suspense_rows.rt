//! Worked rows of suspense boundaries.

ghost use Rattle.rt_language.specs.SuspenseRows.{SuspenseRow, TwoBoundariesRow, NestedBoundaryRow, TwoHoldersRow, ForeignTaskRow};

/// A fallback shows until the task ends.
pub fn suspense()
    ensures { SuspenseRow }
{}

/// One task holds two boundaries.
pub fn one_task_holds_two_boundaries()
    ensures { TwoBoundariesRow }
{}

/// The inner one of two boundaries holds the child that suspends.
pub fn boundary_in_a_boundary()
    ensures { NestedBoundaryRow }
{}

/// Two tasks hold one boundary.
pub fn two_tasks_hold_one_boundary()
    ensures { TwoHoldersRow }
{}

/// A task of another scope holds a boundary after the suspended child went.
pub fn foreign_task_holds_on()
    ensures { ForeignTaskRow }
{}
