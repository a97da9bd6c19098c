//! What single calls of a kept runtime make of the values of cells.

ghost use Rattle.law_kept.specs.Calls.{CallsKeepCells, HandledUpdate, WrittenUpdate};
ghost use Rattle.rt_model.specs.OneLog.{types};

/// After an event that was handled the values are what its hearers make of them, one after another.
pub fn handled_update<C, P, V, H, T, E, L>()
    ensures { HandledUpdate (types C P V H T E L) }
{}

/// After a write the cell has the value, if it is there, and all others are as they were.
pub fn written_update<C, P, V, H, T, E, L>()
    ensures { WrittenUpdate (types C P V H T E L) }
{}

/// A call that takes unit after unit leaves each cell whose owner it doesn't remove.
pub fn calls_keep_cells<C, P, V, H, T, E, L>()
    ensures { CallsKeepCells (types C P V H T E L) }
{}
