//! How often bodies run.

ghost use Rattle.rt_model.specs.OneLog.{types};
ghost use Rattle.rt_model.specs.World.{Application};
ghost use Rattle.law_behavior.specs.Once.{RendersOnce, RendersOnceFrom, RerunsInTurn};

/// In a completed render that polls no task after its first rerun no body runs twice.
pub fn no_body_twice<C, P, V, H, T, E, L>()
    ensures { (app : Application (types C P V H T E L)) → RendersOnce app }
{}

/// So it is of one that goes on from a machine as it is, without a look.
pub fn no_body_twice_from<C, P, V, H, T, E, L>()
    ensures { (app : Application (types C P V H T E L)) → RendersOnceFrom app }
{}

/// A render that polls no task after its first rerun reruns the seen scopes in their order.
pub fn reruns_in_turn<C, P, V, H, T, E, L>()
    ensures { (app : Application (types C P V H T E L)) → RerunsInTurn app }
{}
