//! What commands, moves and logs leave of a cell, and moves and logs of a scope's component.

ghost use Rattle.law_lasting.specs.CellsLast.{CellsLast, CellsStay, LoggedCellsLast};
ghost use Rattle.law_lasting.specs.ChildrenLast.{ChildrenLast, ChildrenStay, LoggedChildrenLast};
ghost use Rattle.law_lasting.specs.ComponentsLast.{ComponentsLast, LoggedComponentsLast};
ghost use Rattle.law_lasting.specs.NumbersLast.{LoggedNumbersLast, NumbersLast};
ghost use Rattle.rt_model.specs.OneLog.{types};
ghost use Rattle.rt_model.specs.World.{Application};

/// A cell keeps its owner and its value, whatever commands are done, unless one writes or drops it.
pub fn cells_stay<C, P, V, H, T, E, L>()
    ensures { (app : Application (types C P V H T E L)) → CellsStay app }
{}

/// A cell keeps its owner and its value along moves until a call or an input writes it, a call
/// drops it, or its owner is removed.
pub fn cells_last<C, P, V, H, T, E, L>()
    ensures { (app : Application (types C P V H T E L)) → CellsLast app }
{}

/// A cell keeps its owner and its value along accepted logs until a call or an input writes it, a
/// call drops it, or its owner is removed.
pub fn logged_cells_last<C, P, V, H, T, E, L>()
    ensures { (app : Application (types C P V H T E L)) → LoggedCellsLast app }
{}

/// A scope keeps its component and the props with it along moves until it is handed another one, or
/// is removed.
pub fn components_last<C, P, V, H, T, E, L>()
    ensures { (app : Application (types C P V H T E L)) → ComponentsLast app }
{}

/// A scope keeps its component and the props with it along accepted logs until it is handed another
/// one, or is removed.
pub fn logged_components_last<C, P, V, H, T, E, L>()
    ensures { (app : Application (types C P V H T E L)) → LoggedComponentsLast app }
{}

/// A node that has a number keeps it along moves, as long as the tree of its side has such a node
/// and its scope isn't removed.
pub fn numbers_last<C, P, V, H, T, E, L>()
    ensures { (app : Application (types C P V H T E L)) → NumbersLast app }
{}

/// A node that has a number keeps it along accepted logs, as long as the tree of its side has such
/// a node and its scope isn't removed.
pub fn logged_numbers_last<C, P, V, H, T, E, L>()
    ensures { (app : Application (types C P V H T E L)) → LoggedNumbersLast app }
{}

/// A child scope of a lawful application stays at its place along moves, as long as the tree of
/// that side has a component of one sort there and its parent isn't removed.
pub fn children_last<C, P, V, H, T, E, L>()
    ensures { (app : Application (types C P V H T E L)) → ChildrenLast app }
{}

/// A child scope stays at its place from a machine that moves reach to one without open work, and
/// is live there: nothing has removed it.
pub fn children_stay<C, P, V, H, T, E, L>()
    ensures { (app : Application (types C P V H T E L)) → ChildrenStay app }
{}

/// A child scope of a lawful application stays at its place along accepted logs, as long as the
/// tree of that side has a component of one sort there and its parent isn't removed.
pub fn logged_children_last<C, P, V, H, T, E, L>()
    ensures { (app : Application (types C P V H T E L)) → LoggedChildrenLast app }
{}
