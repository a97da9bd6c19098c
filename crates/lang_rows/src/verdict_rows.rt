//! Recorded logs of a parent that feeds its child.
ghost use Rattle.lang_rows.specs.Rows.{AcceptedRow, EarlyRow, LateRow, ShortRow};

/// The log of the run itself is accepted.
pub fn accepted_row()
    ensures { AcceptedRow }
{}

/// The child before its parent, nothing at all, and one entry too few.
pub fn refused_rows()
    ensures early { EarlyRow }
    ensures late { LateRow }
    ensures short { ShortRow }
{}
