//! Worked rows of tasks by their kinds and of frozen boundaries, in sessions and in suspended
//! renders.

ghost use Rattle.lang_rows.specs.SuspendedRows.{KindsRow, FrozenRow, TwoTasksRow, IsomorphicRow, SuspendedTaskRow, FrozenRenderRow};

/// A session polls tasks of each kind.
pub fn kinds_in_a_session()
    ensures { KindsRow }
{}

/// A session reruns what is below a frozen boundary.
pub fn frozen_in_a_session()
    ensures { FrozenRow }
{}

/// A session polls a task that holds a boundary, and one that doesn't.
pub fn two_tasks_in_a_session()
    ensures { TwoTasksRow }
{}

/// A suspended render polls the isomorphic task alone.
pub fn isomorphic_in_a_render()
    ensures { IsomorphicRow }
{}

/// A suspended render polls a client's task that holds a boundary.
pub fn suspended_in_a_render()
    ensures { SuspendedTaskRow }
{}

/// A suspended render reruns nothing below a frozen boundary.
pub fn frozen_in_a_render()
    ensures { FrozenRenderRow }
{}
