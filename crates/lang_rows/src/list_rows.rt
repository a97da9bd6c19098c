//! Worked rows of how many items a list has.

ghost use Rattle.lang_rows.specs.ListRows.{CountRow};

/// Above 10,000 there are 10,000 items.
pub fn counts_of_items()
    ensures { CountRow }
{}
