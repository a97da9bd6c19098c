//! What holds after a call that follows others.

ghost use Rattle.law_kept.specs.Settles.{CallsReduce, SettledShow};
ghost use Rattle.rt_model.specs.OneLog.{types};

/// What a call before it made of the values stands after a call that takes unit after unit.
pub fn calls_reduce<C, P, V, H, T, E, L>()
    ensures { CallsReduce (types C P V H T E L) }
{}

/// After a call that settles a page's scope shows its function of these values.
pub fn settled_show<C, P, V, H, T, E, L>()
    ensures { SettledShow (types C P V H T E L) }
{}
