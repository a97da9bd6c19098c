//! A removal as a walk down the first children, and what it leaves as it was.

ghost use Rattle.rt_model.specs.OneLog.{types};
ghost use Rattle.rt_model.specs.World.{Application};
ghost use Rattle.law_moves.specs.Reached.{ReachedAreWooded};
ghost use Rattle.law_moves.specs.Removals.{LeafEnds, LeafPrunes, OneMoreWent, OthersAreLeft, RemovalWalks};

/// What a removal takes first is found by a walk down the first children.
pub fn removal_walks<C, P, V, H, T, E, L>()
    ensures { RemovalWalks (types C P V H T E L) }
{}

/// Where the first child went, the others are left, and the way down to their parent is as it was.
pub fn others_are_left<C, P, V, H, T, E, L>()
    ensures { OthersAreLeft (types C P V H T E L) }
{}

/// Beside the children that went before, one more went.
pub fn one_more_went<C, P, V, H, T, E, L>()
    ensures { OneMoreWent (types C P V H T E L) }
{}

/// Where its children went and then the scope itself, it went with what was below it.
pub fn leaf_ends<C, P, V, H, T, E, L>()
    ensures { LeafEnds (types C P V H T E L) }
{}

/// A removal that isn't cut leads to no work, and its scope alone goes.
pub fn leaf_prunes<C, P, V, H, T, E, L>()
    ensures { (app : Application (types C P V H T E L)) → LeafPrunes app }
{}

/// Wherever moves lead from a replay's start, each scope's children stand one level below it, once.
pub fn reached_are_wooded<C, P, V, H, T, E, L>()
    ensures { (app : Application (types C P V H T E L)) → ReachedAreWooded app }
{}
