//! Worked rows of fallbacks, and of boundaries that turn unseen.

ghost use Rattle.rt_language.specs.BoundaryRows.{BoundaryHookRow, CallbackRow, PlaceholderCountRow, HeldAtStartRow, FallbackReadRow, ShownAndHeldRow, HiddenTurnRow, WaitingEffectRow};

/// The hooks that a fallback left are called at each run of its boundary.
pub fn hooks_of_a_boundary()
    ensures { BoundaryHookRow }
{}

/// A callback that a scope of the fallback registered is passed over.
pub fn callbacks_of_a_fallback()
    ensures { CallbackRow }
{}

/// A fallback without a component doesn't raise the render count.
pub fn placeholder_is_not_counted()
    ensures { PlaceholderCountRow }
{}

/// A boundary goes by whether it is held at its start.
pub fn held_at_its_start()
    ensures { HeldAtStartRow }
{}

/// The fallback's reads stand while its boundary turns.
pub fn fallback_reads_while_turning()
    ensures { FallbackReadRow }
{}

/// A boundary that shows its children turns to its fallback and back.
pub fn shown_and_held()
    ensures { ShownAndHeldRow }
{}

/// A boundary below hidden children turns without an edit.
pub fn turns_unseen()
    ensures { HiddenTurnRow }
{}

/// An effect of a hidden scope waits until it is shown.
pub fn effect_waits()
    ensures { WaitingEffectRow }
{}
