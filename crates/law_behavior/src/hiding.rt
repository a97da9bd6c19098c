//! What hidden scopes do, and when effects are done.

ghost use Rattle.law_behavior.specs.Hidden.{EffectsAreMounted, HiddenWritesNothing, ShownAreMounted};
ghost use Rattle.rt_model.specs.OneLog.{types};
ghost use Rattle.rt_model.specs.World.{Application};

/// A rerun of a scope that isn't shown before and after it writes no edit.
pub fn hidden_writes_nothing<C, P, V, H, T, E, L>()
    ensures { (app : Application (types C P V H T E L)) → HiddenWritesNothing app }
{}

/// Effects are done only of scopes that were shown at the end of the build or of a unit.
pub fn effects_are_mounted<C, P, V, H, T, E, L>()
    ensures { EffectsAreMounted (types C P V H T E L) }
{}

/// At the end of the build and of a unit the scopes that are shown become mounted, for good.
pub fn shown_are_mounted<C, P, V, H, T, E, L>()
    ensures { ShownAreMounted (types C P V H T E L) }
{}
