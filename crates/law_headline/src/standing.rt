//! The tree of scopes, and what shows.

ghost use Rattle.rt_model.specs.OneLog.{types};
ghost use Rattle.rt_model.specs.World.{Application};
ghost use Rattle.law_headline.specs.Standing.{ReachedAreTrees, ReachedHaveOneRoot, ReachedUnfold};
ghost use Rattle.law_headline.specs.Standing.{SettledHaveChildren, SettledStandOnce};
ghost use Rattle.law_headline.specs.Standing.{SettledNumberOnce, SettledShowNodes, SettledShowSides};

/// Wherever moves lead from a replay's start, the scopes are a tree by their heights.
pub fn reached_are_trees<C, P, V, H, T, E, L>()
    ensures { (app : Application (types C P V H T E L)) → ReachedAreTrees app }
{}

/// None of them but the first is without a parent.
pub fn reached_have_one_root<C, P, V, H, T, E, L>()
    ensures { (app : Application (types C P V H T E L)) → ReachedHaveOneRoot app }
{}

/// So each shows what its side shows with the nodes of its child scopes.
pub fn reached_unfold<C, P, V, H, T, E, L>()
    ensures { (app : Application (types C P V H T E L)) → ReachedUnfold app }
{}

/// Once the build has begun, where no work is open, each scope shows a side that has an output.
pub fn settled_show_sides<C, P, V, H, T, E, L>()
    ensures { (app : Application (types C P V H T E L)) → SettledShowSides app }
{}

/// There each component of an output has its child scope.
pub fn settled_have_children<C, P, V, H, T, E, L>()
    ensures { (app : Application (types C P V H T E L)) → SettledHaveChildren app }
{}

/// And each scope but the first stands once, at a component of its parent's output.
pub fn settled_stand_once<C, P, V, H, T, E, L>()
    ensures { (app : Application (types C P V H T E L)) → SettledStandOnce app }
{}

/// There each scope shows a node.
pub fn settled_show_nodes<C, P, V, H, T, E, L>()
    ensures { (app : Application (types C P V H T E L)) → SettledShowNodes app }
{}

/// And what shows has no number twice.
pub fn settled_number_once<C, P, V, H, T, E, L>()
    ensures { (app : Application (types C P V H T E L)) → SettledNumberOnce app }
{}
