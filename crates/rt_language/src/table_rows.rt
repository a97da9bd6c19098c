//! Worked rows of the operators.

ghost use Rattle.rt_language.specs.TableRows.{NumberRow, ParseRow, GivenRow};

/// Sums and products stop at the ends; comparisons and tests.
pub fn numbers()
    ensures { NumberRow }
{}

/// Which texts write a number.
pub fn texts_that_write_numbers()
    ensures { ParseRow }
{}

/// Joined texts, and what a body is given.
pub fn joined_texts()
    ensures { GivenRow }
{}
