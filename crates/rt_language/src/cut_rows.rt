//! Worked rows of units that a fault cuts: which of their edits are taken.

ghost use Rattle.rt_language.specs.CutRows.{CutRow};

/// A unit that a fault cuts gives the edits of the places that it has passed.
pub fn cut_units()
    ensures { CutRow }
{}
