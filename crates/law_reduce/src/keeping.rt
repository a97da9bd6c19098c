//! What hooks that keep cells are worth later, and what a scope has read.

ghost use Rattle.law_reduce.specs.Kept.{CellsAreKept};
ghost use Rattle.law_reduce.specs.Later.{CallsComeLater};
ghost use Rattle.law_reduce.specs.Live.{LiveNeverRemoved, LiveUnremoved};
ghost use Rattle.law_reduce.specs.Reads.{UnrunReadsStay};
ghost use Rattle.law_reduce.specs.RootStays.{CurrentWrapped, ReportsWrapped, RootStays, WrappersStay};
ghost use Rattle.law_reduce.specs.Runs.{RunsAreGiven};
ghost use Rattle.rt_model.specs.OneLog.{types};
ghost use Rattle.rt_model.specs.World.{Application};

use law_behavior::marks_are_run;
use law_lasting::{children_stay, components_last};
use law_moves::fed_fit;

/// Along moves that don't remove a scope whose hooks keep cells they go on to keep them, and each
/// call of its body is given hooks that do.
pub fn cells_are_kept<C, P, V, H, T, E, L>()
    ensures { (app : Application (types C P V H T E L)) → CellsAreKept app }
{}

/// Along moves of a lawful application no number of a cell is drawn twice: a call that comes later
/// is given all that were drawn before it.
pub fn calls_come_later<C, P, V, H, T, E, L>()
    ensures { (app : Application (types C P V H T E L)) → CallsComeLater app }
{}

/// What a scope of a page has read stays as it was from one report to the next, where the scope
/// isn't run in between.
pub fn unrun_reads_stay<C, P, V, H, T, E, L>()
    ensures { UnrunReadsStay (types C P V H T E L) }
{
    // What a write marks is run, or it is gone.
    marks_are_run::<C, P, V, H, T, E, L>();
}

/// Where moves run a scope of a page whose hooks keep its cells, its last call was given hooks that
/// do, if nothing removes it.
pub fn runs_are_given<C, P, V, H, T, E, L>()
    ensures { RunsAreGiven (types C P V H T E L) }
{
    // A page is handed that page, with other props or its own.
    fed_fit::<C, P, V, H, T, E, L>();
    components_last::<C, P, V, H, T, E, L>();
}

/// Along moves of a lawful application no entry removes a scope that is live behind them: what is
/// gone stays gone.
pub fn live_unremoved<C, P, V, H, T, E, L>()
    ensures { (app : Application (types C P V H T E L)) → LiveUnremoved app }
{}

/// So no log of a session of one removes a scope that is live when the build is reported and when
/// the last input is.
pub fn live_never_removed<C, P, V, H, T, E, L>()
    ensures { (app : Application (types C P V H T E L)) → LiveNeverRemoved app }
{}

/// The suspense boundary and the error boundary round the application's root stay, whatever moves
/// lead to.
pub fn wrappers_stay<C, P, V, H, T, E, L>()
    ensures { (app : Application (types C P V H T E L)) → WrappersStay app }
{}

/// So the scope of the application's root stays as long as the error boundary has it in its tree,
/// and where no work is open it is live.
pub fn root_stays<C, P, V, H, T, E, L>()
    ensures { (app : Application (types C P V H T E L)) → RootStays app }
{
    // A child stays at its place in the tree of a scope that nothing removes.
    children_stay::<C, P, V, H, T, E, L>();
}

/// Where no work is open and all is current, the root wrapper has its suspense boundary and that its
/// error boundary.
pub fn current_wrapped<C, P, V, H, T, E, L>()
    ensures { (app : Application (types C P V H T E L)) → CurrentWrapped app }
{}

/// So it is of a session whose headline holds after each report, with the same scopes.
pub fn reports_wrapped<C, P, V, H, T, E, L>()
    ensures { (app : Application (types C P V H T E L)) → ReportsWrapped app }
{}
