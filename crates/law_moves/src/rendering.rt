//! What is current, owed or passed over, where renders while suspended come among entries.

ghost use Rattle.law_moves.specs.Rendered.{AllRenderedAreCurrentOrOwed, RenderedAreCurrentOrOwed};
ghost use Rattle.rt_model.specs.OneLog.{types};
ghost use Rattle.rt_model.specs.World.{Application};

/// Wherever entries and renders while suspended lead, each scope that is on no open work is
/// current, or owed a run, or was passed over.
pub fn rendered_are_current_or_owed<C, P, V, H, T, E, L>()
    ensures { (app : Application (types C P V H T E L)) → RenderedAreCurrentOrOwed app }
{}

/// Where no work is open, as after a completed render, each scope is.
pub fn all_rendered_are_current_or_owed<C, P, V, H, T, E, L>()
    ensures { (app : Application (types C P V H T E L)) → AllRenderedAreCurrentOrOwed app }
{}
