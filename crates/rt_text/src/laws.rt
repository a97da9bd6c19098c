//! What every layout is: the functions claim it by their contracts, and have empty bodies.
ghost use Rattle.rt_text.specs.Laws.{NothingLost, RowsFit};

/// A layout has as many rows as the screen, and each has at most as many characters as the screen
/// has columns, all of them from 32 to 126.
pub fn rows_fit()
    ensures { RowsFit }
{}

/// Where the lines fit the rows one after another are just the characters of the document, in
/// order.
pub fn nothing_is_lost()
    ensures { NothingLost }
{}
