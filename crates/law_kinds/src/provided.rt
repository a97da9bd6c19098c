//! What scopes provide under kinds that a program doesn't provide.

ghost use Rattle.law_kinds.specs.OtherKinds.{CommandsKeepOthers, ProgramsKeepOthers};
ghost use Rattle.rt_model.specs.OneLog.{types};

/// Commands that provide contexts of some kinds alone leave what each scope provides of another one.
pub fn commands_keep_others<C, P, V, H, T, E, L>()
    ensures { CommandsKeepOthers (types C P V H T E L) }
{}

/// So do the commands of a program that provides contexts of these kinds alone, as a body and as
/// another call.
pub fn programs_keep_others<C, P, V, H, T, E, L, A>()
    ensures { ProgramsKeepOthers (types C P V H T E L) A }
{}
