//! That a patch that ended leaves a full block.

ghost use Rattle.rt_model.specs.OneLog.{types};
ghost use Rattle.rt_model.specs.World.{Application};
ghost use Rattle.law_served.specs.RunFilled.{FirstFills, RunFills};

/// The build of a first tree ends with a number for each of its nodes, and a child scope for each
/// of its components: its block is full.
pub fn first_fills<P, C, Q, V, H, T, E, L>()
    ensures { (app : Application (types C Q V H T E L)) → FirstFills P app }
{}

/// So does a patch over an old block that knows from the start what stays.
pub fn run_fills<P, C, Q, V, H, T, E, L>()
    ensures { (app : Application (types C Q V H T E L)) → RunFills P app }
{}
