//! What commands, runs, moves and logs leave of a scope.

ghost use Rattle.law_behavior.specs.Along.{FirstErrorLasts, HoldersLast, HooksLast, LoggedFirstErrorLasts, LoggedHoldersLast, LoggedHooksLast};
ghost use Rattle.law_behavior.specs.Holding.{EndsRelease, HoldersStay, RunsKeepReads, SuspensionsHold};
ghost use Rattle.law_behavior.specs.Keeping.{FirstErrorStays, HooksStay};
ghost use Rattle.rt_model.specs.OneLog.{types};
ghost use Rattle.rt_model.specs.World.{Application};

/// The error that a boundary keeps stays, whatever commands are done, unless one clears it.
pub fn first_error_stays<C, P, V, H, T, E, L>()
    ensures { (app : Application (types C P V H T E L)) → FirstErrorStays app }
{}

/// A hook that a scope keeps at an index is never replaced, whatever commands are done.
pub fn hooks_stay<C, P, V, H, T, E, L>()
    ensures { (app : Application (types C P V H T E L)) → HooksStay app }
{}

/// After a run the sources of a scope are those that its body read in this run, and no others.
pub fn runs_keep_reads<C, P, V, H, T, E, L>()
    ensures { (app : Application (types C P V H T E L)) → RunsKeepReads app }
{}

/// A task on which a body suspends holds the boundary whose children the body is among.
pub fn suspensions_hold<C, P, V, H, T, E, L>()
    ensures { SuspensionsHold (types C P V H T E L) }
{}

/// A task goes on to hold a boundary, whatever commands are done, unless one ends the task.
pub fn holders_stay<C, P, V, H, T, E, L>()
    ensures { (app : Application (types C P V H T E L)) → HoldersStay app }
{}

/// The end of a task releases each boundary that it held, and marks it.
pub fn ends_release<C, P, V, H, T, E, L>()
    ensures { EndsRelease (types C P V H T E L) }
{}

/// The error that a boundary keeps stays along moves until a call clears it, or the boundary is
/// removed.
pub fn first_error_lasts<C, P, V, H, T, E, L>()
    ensures { (app : Application (types C P V H T E L)) → FirstErrorLasts app }
{}

/// A hook stays along moves until its scope is removed.
pub fn hooks_last<C, P, V, H, T, E, L>()
    ensures { (app : Application (types C P V H T E L)) → HooksLast app }
{}

/// A task goes on to hold a boundary along moves until it ends, or the boundary is removed.
pub fn holders_last<C, P, V, H, T, E, L>()
    ensures { (app : Application (types C P V H T E L)) → HoldersLast app }
{}

/// The same holds of first errors along accepted logs.
pub fn logged_first_error_lasts<C, P, V, H, T, E, L>()
    ensures { (app : Application (types C P V H T E L)) → LoggedFirstErrorLasts app }
{}

/// The same holds of hooks along accepted logs.
pub fn logged_hooks_last<C, P, V, H, T, E, L>()
    ensures { (app : Application (types C P V H T E L)) → LoggedHooksLast app }
{}

/// The same holds of holders along accepted logs.
pub fn logged_holders_last<C, P, V, H, T, E, L>()
    ensures { (app : Application (types C P V H T E L)) → LoggedHoldersLast app }
{}
