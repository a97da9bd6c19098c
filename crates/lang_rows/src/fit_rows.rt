//! Worked rows of the node test at its bounds.

ghost use Rattle.lang_rows.specs.FitRows.{LevelRow, WidthRow, SlotRow};

/// A tree has at most 128 levels.
pub fn levels_fit()
    ensures { LevelRow }
{}

/// An element has at most 256 children, and a tree as many roots.
pub fn rows_fit()
    ensures { WidthRow }
{}

/// A tree gives as many slots as its template has.
pub fn slots_fit()
    ensures { SlotRow }
{}
