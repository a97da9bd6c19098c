//! What is marked runs, and what is woken is polled.

ghost use Rattle.rt_model.specs.OneLog.{types};
ghost use Rattle.rt_model.specs.World.{Application};
ghost use Rattle.law_behavior.specs.Looks.{LooksTakeAll};
ghost use Rattle.law_behavior.specs.Owed.{LoggedMarksAreRun, LoggedWakesArePolled, MarksAreRun, WakesArePolled};
ghost use Rattle.law_behavior.specs.Wakes.{WakesArePosted};

/// A scope that is marked stays so until it runs; where nothing is owed it has run or is gone.
pub fn marks_are_run<C, P, V, H, T, E, L>()
    ensures { (app : Application (types C P V H T E L)) → MarksAreRun app }
{}

/// A task that is woken stays so until it is polled; where nothing is owed it was polled, or it is
/// paused or has ended.
pub fn wakes_are_polled<C, P, V, H, T, E, L>()
    ensures { (app : Application (types C P V H T E L)) → WakesArePolled app }
{}

/// The same holds of marks along accepted logs.
pub fn logged_marks_are_run<C, P, V, H, T, E, L>()
    ensures { (app : Application (types C P V H T E L)) → LoggedMarksAreRun app }
{}

/// The same holds of wakes along accepted logs.
pub fn logged_wakes_are_polled<C, P, V, H, T, E, L>()
    ensures { (app : Application (types C P V H T E L)) → LoggedWakesArePolled app }
{}

/// A look takes all that is posted: marks of live scopes are seen, wakes of tasks are queued.
pub fn looks_take_all<C, P, V, H, T, E, L>()
    ensures { LooksTakeAll (types C P V H T E L) }
{}

/// A spawn, a wake of a task that hasn't ended, and a resume of a paused one post a wake.
pub fn wakes_are_posted<C, P, V, H, T, E, L>()
    ensures { WakesArePosted (types C P V H T E L) }
{}
