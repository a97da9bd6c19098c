//! Moves beside the edits that are told of them.

ghost use Rattle.rt_model.specs.OneLog.{types};
ghost use Rattle.rt_model.specs.World.{Application};
ghost use Rattle.law_moves.specs.Laws.{MovesAreTold};
ghost use Rattle.law_moves.specs.Units.{UnitEnds, UnitIsTold, UnitStops};
ghost use Rattle.law_moves.specs.Reports.{LogsJoin, ReportsGoOn};

/// The entries of moves up to a settled machine are told, and what is told is of that machine.
pub fn moves_are_told<C, P, V, H, T, E, L>()
    ensures { (app : Application (types C P V H T E L)) → MovesAreTold app }
{}

/// Of one unit its last machine and its edits are told, up to its end or to the fault that cut it.
pub fn unit_is_told<C, P, V, H, T, E, L>()
    ensures { (app : Application (types C P V H T E L)) → UnitIsTold app }
{}

/// A unit whose work is served is accepted, and its edits are those between the states around it.
pub fn unit_ends<C, P, V, H, T, E, L>()
    ensures { (app : Application (types C P V H T E L)) → UnitEnds app }
{}

/// A unit that a refusal stopped is accepted up to there, with the edits up to the refused item.
pub fn unit_stops<C, P, V, H, T, E, L>()
    ensures { (app : Application (types C P V H T E L)) → UnitStops app }
{}

/// A log goes on from where another one ended.
pub fn logs_join<C, P, V, H, T, E, L>()
    ensures { (app : Application (types C P V H T E L)) → LogsJoin app }
{}

/// A report goes on entry by entry and unit by unit: its log is accepted within limits, and its
/// edits are those of its units.
pub fn reports_go_on<C, P, V, H, T, E, L>()
    ensures { (app : Application (types C P V H T E L)) → ReportsGoOn app }
{}
