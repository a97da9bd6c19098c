//! Laws of kinds of contexts in ranges.
ghost use Rattle.rt_model.specs.OneLog.{types};
ghost use Rattle.author_programs.specs.Kinds.{CommandsWithin, KindsApart, KindsGoOn, OtherKindsStay};

/// Of ranges that are all apart a kind is in one at most.
pub fn kinds_apart()
    ensures { KindsApart }
{}

/// Programs that provide contexts of some kinds alone do so one after another, too.
pub fn kinds_go_on<C, P, V, H, T, E, L, A, B>()
    ensures { KindsGoOn (types C P V H T E L) A B }
{}

/// Such a program gives no command that provides a context of another kind.
pub fn commands_within<C, P, V, H, T, E, L, A>()
    ensures { CommandsWithin (types C P V H T E L) A }
{}

/// What its call provided of another kind is as it was.
pub fn other_kinds_stay<C, P, V, H, T, E, L, A>()
    ensures { OtherKindsStay (types C P V H T E L) A }
{}
