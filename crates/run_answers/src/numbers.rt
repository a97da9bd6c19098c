//! Numbers that come next, and what has them.
ghost use Rattle.std.specs.Prelude.{◌≡◌, ◌+◌, IfSome, IfNone, IsTrue, option_map};
ghost use Rattle.rt_model.specs.World.{at_end};

use rt_values::Task;

/// The number after this one. None of a counter's last one.
pub fn after(number: u64) -> Option<u64>
    ensures next { IfSome result (λ next. next ≡ number + 1) }
    ensures end { IfNone result (IsTrue (at_end number)) }
{
    if number == u64::MAX {
        None
    } else {
        Some(number + 1)
    }
}

/// The task of a number.
pub fn named(number: Option<u64>) -> Option<Task>
    ensures { option_map (λ task. task.0) result ≡ number }
{
    match number {
        Some(number) => Some(Task(number)),
        None => None,
    }
}
