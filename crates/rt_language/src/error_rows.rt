//! Worked rows of error boundaries.

ghost use Rattle.rt_language.specs.ErrorRows.{CaughtRow, FirstErrorRow, FailingHandlerRow};

/// An error is caught, its handler shows, and clearing it shows the children anew.
pub fn error_caught_and_cleared()
    ensures { CaughtRow }
{}

/// Of two errors the first one stays, and the default handler shows it.
pub fn first_error_stays()
    ensures { FirstErrorRow }
{}

/// Where the handler fails the children stay.
pub fn handler_fails()
    ensures { FailingHandlerRow }
{}
