//! Worked rows of tasks and effects.

ghost use Rattle.rt_language.specs.TaskRows.{CancelledRow, CancelledAloneRow, WokenRow, TaskFirstRow, SelfCancelRow};

/// A task that ended before its poll isn't polled, and the effect runs.
pub fn ended_task_isnt_polled()
    ensures { CancelledRow }
{}

/// The same without the effect.
pub fn ended_task_alone()
    ensures { CancelledAloneRow }
{}

/// A task that an effect wakes is polled before the next batch of effects.
pub fn task_before_the_next_batch()
    ensures { WokenRow }
{}

/// A task goes first on equal order.
pub fn task_goes_first()
    ensures { TaskFirstRow }
{}

/// A task that cancels itself is polled no more.
pub fn task_cancels_itself()
    ensures { SelfCancelRow }
{}
