//! How a removal cleans up, and how a batch of effects is done.

ghost use Rattle.law_behavior.specs.Batches.{EffectsInTurn};
ghost use Rattle.law_behavior.specs.CleanUps.{ChildrenGoFirst, CleanUpsInTurn};
ghost use Rattle.rt_model.specs.OneLog.{types};
ghost use Rattle.rt_model.specs.World.{Application};

/// A removal calls each clean-up of its scope once, the last one made first.
pub fn clean_ups_in_turn<C, P, V, H, T, E, L>()
    ensures { (app : Application (types C P V H T E L)) → CleanUpsInTurn app }
{}

/// The scope that a removal takes next has no child left, so children go before their parents.
pub fn children_go_first<C, P, V, H, T, E, L>()
    ensures { ChildrenGoFirst (types C P V H T E L) }
{}

/// A batch does all effects of its scope in order of queueing, each one's commands before the next.
pub fn effects_in_turn<C, P, V, H, T, E, L>()
    ensures { (app : Application (types C P V H T E L)) → EffectsInTurn app }
{}
