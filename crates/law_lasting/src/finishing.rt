//! What finished sessions have in common.

ghost use Rattle.law_lasting.specs.OneFinish.{OneFinish, RowsAreSessions};
ghost use Rattle.rt_model.specs.OneLog.{types};
ghost use Rattle.rt_model.specs.World.{Application};

/// Two finished sessions of one application with the same props and inputs have the same reports,
/// edits and states, whatever their limits and sinks.
pub fn one_finish<C, P, V, H, T, E, L>()
    ensures { (app : Application (types C P V H T E L)) → OneFinish app }
{}

/// What the definitions tell of logs, one for the build and one for each input, each to where
/// nothing is owed, is what every finished session reports.
pub fn rows_are_sessions<C, P, V, H, T, E, L>()
    ensures { (app : Application (types C P V H T E L)) → RowsAreSessions app }
{}
