//! Laws of the definitions, for every application.

ghost use Rattle.rt_model.specs.World.{Application};
ghost use Rattle.rt_model.specs.OneLog.{types, OneLog};
ghost use Rattle.rt_model.specs.Laws.{ProgramsAreLawful};
ghost use Rattle.rt_model.specs.Lasting.{LawfulLogsLast};
ghost use Rattle.rt_model.specs.Framed.{RemovalTakesOne};
ghost use Rattle.rt_model.specs.Unchanged.{SameCausesNothing, RestCausesNothing};
ghost use Rattle.rt_model.specs.Once.{ShownOnce};
ghost use Rattle.rt_model.specs.CurrentTest.{TestDecidesCurrent};
ghost use Rattle.rt_model.specs.Finished.{DoneIsValid, FaultIsInvalid, OneFault, FinishedIsHeadline, FinishedComesTo, RanIsValid, ToldIsReplayed};

/// For one list of inputs at most one log of each length is accepted.
pub fn one_log<C, P, V, H, T, E, L>()
    ensures { (app : Application (types C P V H T E L)) → OneLog app }
{}

/// An application whose calls are programs in data obeys the laws, where its tests decide and it memoizes only what means the same.
pub fn programs_are_lawful<C, P, V, H, T, E, L>()
    ensures { ProgramsAreLawful (types C P V H T E L) }
{}

/// Along an accepted log of a lawful application each scope has a greater number than those made before it, no counter falls, no entry names a scope that was removed,
/// no ended task is polled, and heights rise by one from a live parent to its child.
pub fn lawful_logs_last<C, P, V, H, T, E, L>()
    ensures { (app : Application (types C P V H T E L)) → LawfulLogsLast app }
{}

/// A removal that isn't cut leads to no work and takes its scope alone: every other one keeps its component, parent, height and sides.
pub fn removal_takes_one<C, P, V, H, T, E, L>()
    ensures { (app : Application (types C P V H T E L)) → RemovalTakesOne app }
{}

/// Between a state and itself no edit is caused, where no attribute slot of a kept output has a name twice.
pub fn same_causes_nothing<C, P, V, H, T, E, L>()
    ensures { (app : Application (types C P V H T E L)) → SameCausesNothing app }
{}

/// After an accepted log of a lawful application what shows has no number twice, and none is 0.
pub fn shown_once<C, P, V, H, T, E, L>()
    ensures { (app : Application (types C P V H T E L)) → ShownOnce app }
{}

/// Between a state that an accepted log of a lawful application reaches and itself no edit is caused.
pub fn rest_causes_nothing<C, P, V, H, T, E, L>()
    ensures { (app : Application (types C P V H T E L)) → RestCausesNothing app }
{}

/// The test that every scope is current says so exactly where it holds, where the application's tests decide.
pub fn test_decides_current<C, P, V, H, T, E, L>()
    ensures { (app : Application (types C P V H T E L)) → TestDecidesCurrent app }
{}

/// Reports are told exactly of logs that replay accepts one after another, and lead to the same state.
pub fn told_is_replayed<C, P, V, H, T, E, L>()
    ensures { (app : Application (types C P V H T E L)) → ToldIsReplayed app }
{}

/// Reports that pass the computing test keep the headline, where the application's tests decide.
pub fn finished_is_headline<C, P, V, H, T, E, L>()
    ensures { (app : Application (types C P V H T E L)) → FinishedIsHeadline app }
{}

/// Reports that pass the computing test, and a log from there on within the limits, come to the fault of the refusal.
pub fn finished_comes_to<C, P, V, H, T, E, L>()
    ensures { (app : Application (types C P V H T E L)) → FinishedComesTo app }
{}

/// A session that comes to a fault has no valid inputs.
pub fn fault_is_invalid<C, P, V, H, T, E, L>()
    ensures { (app : Application (types C P V H T E L)) → FaultIsInvalid app }
{}

/// Where a log goes on within the limits until nothing is owed and no input is left, the inputs are valid.
pub fn done_is_valid<C, P, V, H, T, E, L>()
    ensures { (app : Application (types C P V H T E L)) → DoneIsValid app }
{}

/// The inputs of a session that finished are valid.
pub fn ran_is_valid<C, P, V, H, T, E, L>()
    ensures { (app : Application (types C P V H T E L)) → RanIsValid app }
{}

/// A session comes to one fault at most.
pub fn one_fault<C, P, V, H, T, E, L>()
    ensures { (app : Application (types C P V H T E L)) → OneFault app }
{}
