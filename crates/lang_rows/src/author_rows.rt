//! Worked rows of what authors are told.

ghost use Rattle.lang_rows.specs.AuthorRows.{TwoValuesRow, NoTurnRow, HiddenEffectRow, LongRow};

/// A body that looks a kind up in its own scope and provides two values of it spends its units.
pub fn provides_two_values()
    ensures { TwoValuesRow }
{}

/// A callback of a boundary that shows its children waits for a turn, which doesn't come.
pub fn callback_without_a_turn()
    ensures { NoTurnRow }
{}

/// A scope that was mounted runs its effects also while it is hidden.
pub fn effect_of_a_hidden_scope()
    ensures { HiddenEffectRow }
{}

/// A tree with 257 nodes in a row doesn't fit.
pub fn row_is_too_long()
    ensures { LongRow }
{}
