//! One report after another, and what a session comes to.

ghost use Rattle.rt_model.specs.OneLog.{types};
ghost use Rattle.rt_model.specs.World.{Application};
ghost use Rattle.law_moves.specs.ReportLaws.{RestOwesNone, SofarMore, SofarRan, SofarRanTo};

/// At rest, where no listener waits and no unit is next, nothing is at work or owed.
pub fn rest_owes_none<C, P, V, H, T, E, L>()
    ensures { RestOwesNone (types C P V H T E L) }
{}

/// A report that rests where nothing is owed joins those before it.
pub fn reports_join<C, P, V, H, T, E, L>()
    ensures { (app : Application (types C P V H T E L)) → SofarMore app }
{}

/// Reports of the build and of all inputs are what the definitions do.
pub fn reports_ran<C, P, V, H, T, E, L>()
    ensures { (app : Application (types C P V H T E L)) → SofarRan app }
{}

/// With a refusal in the last report they are what the definitions do up to that refusal.
pub fn reports_ran_to<C, P, V, H, T, E, L>()
    ensures { (app : Application (types C P V H T E L)) → SofarRanTo app }
{}
