//! Worked rows of the order of work, of tasks that pause, and of what goes with a scope.

ghost use Rattle.rt_language.specs.StateRows.{OrderRow, ForgetRow, PauseRow, GoneRow, HeldGoesRow, AnewRow, EndlessRow};

/// Scopes of one height rerun in the order of their numbers.
pub fn order_of_equal_heights()
    ensures { OrderRow }
{}

/// The readers of a dropped cell read none, and nothing is written to it.
pub fn cell_is_dropped()
    ensures { ForgetRow }
{}

/// A paused task is not polled; it is woken when it becomes active, and not where it is.
pub fn task_pauses()
    ensures { PauseRow }
{}

/// With a scope go its cells and tasks, and its clean-ups are called; a task of the root stays.
pub fn all_goes_with_a_scope()
    ensures { GoneRow }
{}

/// A held boundary goes with its fallback's children first, and its fallback counts its own renders.
pub fn fallback_goes_first()
    ensures { HeldGoesRow }
{}

/// Units are counted anew from each input.
pub fn units_begin_anew()
    ensures { AnewRow }
{}

/// A task without steps ends at its first poll.
pub fn task_without_steps()
    ensures { EndlessRow }
{}
