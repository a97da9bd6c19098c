//! Moves beside the logs that are accepted.

ghost use Rattle.rt_model.specs.OneLog.{types};
ghost use Rattle.rt_model.specs.World.{Application};
ghost use Rattle.law_moves.specs.Laws.{FuelSuffices, LogsAreMoves, MovesAreAccepted, OneMove, StopsComeTo};

/// A replay serves every silent item before the next entry, and more steps change nothing.
pub fn fuel_suffices<C, P, V, H, T, E, L>()
    ensures { (app : Application (types C P V H T E L)) → FuelSuffices app }
{}

/// From each machine at most one move goes on.
pub fn one_move<C, P, V, H, T, E, L>()
    ensures { (app : Application (types C P V H T E L)) → OneMove app }
{}

/// The entries of moves up to a settled machine are accepted within limits, faults included.
pub fn moves_are_accepted<C, P, V, H, T, E, L>()
    ensures { (app : Application (types C P V H T E L)) → MovesAreAccepted app }
{}

/// Each log that is accepted within limits is the entries of moves.
pub fn logs_are_moves<C, P, V, H, T, E, L>()
    ensures { (app : Application (types C P V H T E L)) → LogsAreMoves app }
{}

/// Moves up to a refusal came to its fault.
pub fn stops_come_to<C, P, V, H, T, E, L>()
    ensures { (app : Application (types C P V H T E L)) → StopsComeTo app }
{}
