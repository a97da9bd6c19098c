//! Worked rows of what actions and steps do.

ghost use Rattle.rt_language.specs.CommandRows.{StayRow, OwnContextRow, BatchRow, AfterRow, ForeverRow};

/// A task stays at its step, is paused and resumed, and throws.
pub fn task_stays_and_throws()
    ensures { StayRow }
{}

/// A call sees what it has provided at once.
pub fn call_sees_its_own_context()
    ensures { OwnContextRow }
{}

/// Of two effects in a batch the second sees what the first wrote.
pub fn effects_in_a_batch()
    ensures { BatchRow }
{}

/// Of two hooks after a run the second sees what the first wrote.
pub fn hooks_after_a_run()
    ensures { AfterRow }
{}

/// A clean-up spawns a task that outlives its scope.
pub fn task_outlives_its_scope()
    ensures { ForeverRow }
{}
