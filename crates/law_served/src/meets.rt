//! That the two blocks of a patch meet, and what its edits make of the old one.

ghost use Rattle.rt_model.specs.OneLog.{types};
ghost use Rattle.rt_model.specs.World.{Application};
ghost use Rattle.law_served.specs.Meeting.{BlocksMeet, RunRenews};

/// The trees of a patch's two blocks meet once it ended, where it started over a full block, both
/// trees pass the node test, each child scope shows a node, and the edits of each fed one make what
/// it shows after of what it showed before.
pub fn blocks_meet<P, C, Q, V, H, T, E, L>()
    ensures { (app : Application (types C Q V H T E L)) → BlocksMeet P app }
{}

/// So the edits of a patch that is shown, with those of fed child scopes each at its step, make
/// what the new block shows of what the old one showed, wherever that stands, where the nodes that
/// were given for a scope are those that it shows; matched places keep their numbers, and
/// components that are fed their child scopes.
pub fn run_renews<P, C, Q, V, H, T, E, L>()
    ensures { (app : Application (types C Q V H T E L)) → RunRenews P app }
{}
