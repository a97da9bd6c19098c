//! What a patch knows when it passes a mark.

ghost use Rattle.rt_model.specs.OneLog.{types};
ghost use Rattle.rt_model.specs.World.{Application};
ghost use Rattle.law_served.specs.KnownSpots.{BroughtIsKnown, NewChildrenGiven};

/// Where a patch knows from the start all that stays, it knows at each mark that it passes what
/// was brought in front of it: each node has a number, and each component its child scope.
pub fn brought_is_known<P, C, Q, V, H, T, E, L>()
    ensures { (app : Application (types C Q V H T E L)) → BroughtIsKnown P app }
{}

/// A child scope that stands where none stood at the start has its row.
pub fn new_children_given<P, C, Q, V, H, T, E, L>()
    ensures { (app : Application (types C Q V H T E L)) → NewChildrenGiven P app }
{}
