//! Three rows of patches, as the marks write them.

ghost use Rattle.rt_model.specs.OneLog.{types};
ghost use Rattle.rt_model.specs.World.{Application};
ghost use Rattle.law_patch.specs.Rows.{RowEmpties, RowGrows, RowMoves};

/// A listener moves between two slots of an element.
pub fn row_moves<C, P, V, H, T, E, L>()
    ensures { (app : Application (types C P V H T E L)) (handler : H) → RowMoves app handler }
{}

/// A fragment grows.
pub fn row_grows<C, P, V, H, T, E, L>()
    ensures { (app : Application (types C P V H T E L)) → RowGrows app }
{}

/// A fragment empties.
pub fn row_empties<C, P, V, H, T, E, L>()
    ensures { (app : Application (types C P V H T E L)) → RowEmpties app }
{}
