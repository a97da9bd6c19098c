//! What the laws say of a session: after each report its outputs are current.

ghost use Rattle.law_moves.specs.Reported.{RanIsCurrent, RanToIsCurrent};
ghost use Rattle.rt_model.specs.OneLog.{types};
ghost use Rattle.rt_model.specs.World.{Application};

/// After each report of a session that finished every output is current, and what is held shows it.
pub fn ran_is_current<C, P, V, H, T, E, L>()
    ensures { (app : Application (types C P V H T E L)) → RanIsCurrent app }
{}

/// After each finished report of a session that came to a fault they are too.
pub fn ran_to_is_current<C, P, V, H, T, E, L>()
    ensures { (app : Application (types C P V H T E L)) → RanToIsCurrent app }
{}
