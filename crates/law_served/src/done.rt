//! What a whole patch does, and what it tells at its end.

ghost use Rattle.rt_model.specs.OneLog.{types};
ghost use Rattle.rt_model.specs.World.{Application};
ghost use Rattle.law_served.specs.RunDone.{RunTellsAll};
ghost use Rattle.law_served.specs.RunOpened.{RunIsOpened};

/// From its start to its end a patch tells the child scopes that the definitions drop, in their
/// order, and the numbers of the old tree's nodes that they don't keep.
pub fn run_tells<P, C, Q, V, H, T, E, L>()
    ensures { (app : Application (types C Q V H T E L)) → RunTellsAll P app }
{}

/// From its start to its end a patch over a full block does the work that the definitions open of
/// the two trees, one thing after another.
pub fn run_opens<P, C, Q, V, H, T, E, L>()
    ensures { (app : Application (types C Q V H T E L)) → RunIsOpened P app }
{}
