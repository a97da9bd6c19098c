//! What single changes leave as it was, and what that is worth.

ghost use Rattle.law_moves.specs.Fresh.{FreshRepeats};
ghost use Rattle.law_moves.specs.Heeding.{CommandsHeed, RemovalHeeds};
ghost use Rattle.rt_model.specs.OneLog.{types};
ghost use Rattle.rt_model.specs.World.{Application};

/// After commands whoever read what they changed, or is held in another way, is marked.
pub fn commands_heed<C, P, V, H, T, E, L>()
    ensures { (app : Application (types C P V H T E L)) → CommandsHeed app }
{}

/// After a scope went with what it owned, whoever read any of that is marked.
pub fn removal_heeds<C, P, V, H, T, E, L>()
    ensures { RemovalHeeds (types C P V H T E L) }
{}

/// Where nothing that a body read has changed it would answer the same again.
pub fn fresh_repeats<C, P, V, H, T, E, L>()
    ensures { (app : Application (types C P V H T E L)) → FreshRepeats app }
{}
