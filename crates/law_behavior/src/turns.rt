//! What comes next, and inputs of which nothing comes.

ghost use Rattle.law_behavior.specs.Absent.{AbsentChangesNothing};
ghost use Rattle.law_behavior.specs.Comes.{NextInTurn, NoneIsLeft};
ghost use Rattle.rt_model.specs.OneLog.{types};
ghost use Rattle.rt_model.specs.World.{Application};

/// The lowest scope or task comes next, a task before its scope, and effects last.
pub fn next_in_turn<C, P, V, H, T, E, L>()
    ensures { NextInTurn (types C P V H T E L) }
{}

/// Where nothing comes next nothing is posted, seen or queued, and no mounted scope has effects.
pub fn none_is_left<C, P, V, H, T, E, L>()
    ensures { NoneIsLeft (types C P V H T E L) }
{}

/// An event, wake, write, mark or message that names what isn't there changes nothing.
pub fn absent_changes_nothing<C, P, V, H, T, E, L>()
    ensures { (app : Application (types C P V H T E L)) → AbsentChangesNothing app }
{}
