//! What the open work names is there.

ghost use Rattle.rt_model.specs.OneLog.{types};
ghost use Rattle.rt_model.specs.World.{Application};
ghost use Rattle.law_moves.specs.Ready.{DueIsServed, ReachedAreNamed};

/// Wherever moves lead from a replay's start, what the first item of the open work names is there.
pub fn reached_are_named<C, P, V, H, T, E, L>()
    ensures { (app : Application (types C P V H T E L)) → ReachedAreNamed app }
{}

/// Open work can be served: wherever moves lead, an entry is due where its first item wants one.
pub fn due_is_served<C, P, V, H, T, E, L>()
    ensures { (app : Application (types C P V H T E L)) → DueIsServed app }
{}
