//! A verdict is just what the log deserves.
ghost use Rattle.rt_model.specs.OneLog.{types};
ghost use Rattle.rt_model.specs.World.{Application};
ghost use Rattle.lang_rows.specs.Verdicts.{AcceptedExactly, RefusedExactly};

/// A log is accepted exactly where each entry is allowed and each list ends with nothing left.
pub fn accepted_exactly<C, P, V, H, T, E, L>()
    ensures { (app : Application (types C P V H T E L)) → AcceptedExactly app }
{}

/// It is refused at an entry exactly where it is good up to there, and that entry isn't allowed or
/// the list ends there too early.
pub fn refused_exactly<C, P, V, H, T, E, L>()
    ensures { (app : Application (types C P V H T E L)) → RefusedExactly app }
{}
