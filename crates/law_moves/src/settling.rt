//! What is current, and what is owed, wherever moves lead from a replay's start.

ghost use Rattle.law_moves.specs.Due.{DueIsAny};
ghost use Rattle.law_moves.specs.Sorts.{ChildrenFitSlots, FedFit};
ghost use Rattle.law_moves.specs.Settled.{AllAreCurrentOrOwed, OthersAreCurrentOrOwed, SettledAreCurrent, SettledShowHeld};
ghost use Rattle.rt_model.specs.OneLog.{types};
ghost use Rattle.rt_model.specs.World.{Application};

/// Each scope that is on no open work is current, or owed a run.
pub fn others_are_current_or_owed<C, P, V, H, T, E, L>()
    ensures { (app : Application (types C P V H T E L)) → OthersAreCurrentOrOwed app }
{}

/// Where no work is open, each scope is current, or owed a run.
pub fn all_are_current_or_owed<C, P, V, H, T, E, L>()
    ensures { (app : Application (types C P V H T E L)) → AllAreCurrentOrOwed app }
{}

/// Where nothing is at work or owed, every kept output is current.
pub fn settled_are_current<C, P, V, H, T, E, L>()
    ensures { (app : Application (types C P V H T E L)) → SettledAreCurrent app }
{}

/// There a boundary shows its fallback just while live tasks hold it.
pub fn settled_show_held<C, P, V, H, T, E, L>()
    ensures { (app : Application (types C P V H T E L)) → SettledShowHeld app }
{}

/// What comes next names what is live, so it is due: the test for that refuses nothing.
pub fn due_is_any<C, P, V, H, T, E, L>()
    ensures { (app : Application (types C P V H T E L)) → DueIsAny app }
{}

/// A child scope is of the sort of the component at its place: the same one of the application's,
/// or the same built-in one.
pub fn children_fit_slots<C, P, V, H, T, E, L>()
    ensures { (app : Application (types C P V H T E L)) → ChildrenFitSlots app }
{}

/// A child scope that open work hands a component is of that component's sort.
pub fn fed_fit<C, P, V, H, T, E, L>()
    ensures { (app : Application (types C P V H T E L)) → FedFit app }
{}
