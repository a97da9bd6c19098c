//! What a whole patch writes.

ghost use Rattle.rt_model.specs.OneLog.{types};
ghost use Rattle.rt_model.specs.World.{Application};
ghost use Rattle.law_served.specs.RunWritten.{RunBrings, RunHides, RunIsWritten};

/// From its start to its end the edits of a patch, with those of fed child scopes each at its step,
/// are what the definitions write of the two trees, where the nodes that were given for a scope are
/// those that it shows, and are some.
pub fn run_is_written<P, C, Q, V, H, T, E, L>()
    ensures { (app : Application (types C Q V H T E L)) → RunIsWritten P app }
{}

/// So where the two trees meet, these edits make what the new block shows of what the old one
/// showed, wherever that stands.
pub fn run_brings<P, C, Q, V, H, T, E, L>()
    ensures { (app : Application (types C Q V H T E L)) → RunBrings P app }
{}

/// A patch of a block that isn't shown gives no edit.
pub fn run_hides<P, C, Q, V, H, T, E, L>()
    ensures { (app : Application (types C Q V H T E L)) → RunHides P app }
{}
