//! Worked rows of what a source can't say: attributes that move, renders while suspended, reactive contexts.

ghost use Rattle.rt_model.specs.AttributeRows.{AttributesMove};
ghost use Rattle.rt_model.specs.RenderRows.{SuspendedRenders, ContextWakesTask};
ghost use Rattle.rt_model.specs.Small.{SmallAreLawful};
ghost use Rattle.rt_model.specs.RowsHold.{RowsHold};

/// The applications of the rows obey the laws, whatever their bodies and polls.
pub fn small_are_lawful()
    ensures { SmallAreLawful }
{}

/// The headline holds of a row that computes, for any bodies and polls.
pub fn rows_hold()
    ensures { RowsHold }
{}

/// What an attribute slot no longer gives goes first, then what is new comes.
pub fn attributes_move()
    ensures { AttributesMove }
{}

/// Renders while suspended: what each resolves, and what it passes over.
pub fn suspended_renders()
    ensures { SuspendedRenders }
{}

/// A write polls a task only where its last poll read the cell in a context that targets it.
pub fn context_wakes_task()
    ensures { ContextWakesTask }
{}
