//! A change shows in the scope that it serves alone.

ghost use Rattle.law_moves.specs.Frame.{ItemsLeave, MakesJoin, RemovalsLeave, RunsLeave};
ghost use Rattle.rt_model.specs.OneLog.{types};
ghost use Rattle.rt_model.specs.World.{Application};

/// A run changes what shows of its own scope alone, and no scope comes, goes or stands elsewhere.
pub fn runs_leave<C, P, V, H, T, E, L>()
    ensures { (app : Application (types C P V H T E L)) → RunsLeave app }
{}

/// What serves an item changes the scope that it serves alone.
/// No scope comes but the one that it makes.
pub fn items_leave<C, P, V, H, T, E, L>()
    ensures { (app : Application (types C P V H T E L)) → ItemsLeave app }
{}

/// A removal takes its own scope alone.
pub fn removals_leave<C, P, V, H, T, E, L>()
    ensures { (app : Application (types C P V H T E L)) → RemovalsLeave app }
{}

/// A new scope joins its parent's children, and stands one level below it.
pub fn makes_join<C, P, V, H, T, E, L>()
    ensures { (app : Application (types C P V H T E L)) → MakesJoin app }
{}
