//! A call stands for one of the definitions, so that a body written with the calls of a `Cx` means
//! a program in data.
ghost use Rattle.rt_model.specs.OneLog.{types};
ghost use Rattle.author_calls.specs.GoesOn.{CallsStandFor, GivenGoesOn, ReadsGoOn, ContextsGoOn, CellsGoOn, TasksGoOn, ErrorsGoOn, HooksGoOn};

/// A call begins, ends and goes on after a refusal as the one that it stands for.
pub fn calls_stand_for<P, C, Q, V, H, T, E, L, A, B>()
    ensures { CallsStandFor P C Q V H T E L A B }
{}

/// A program goes on with what its call is given.
pub fn given_goes_on<C, Q, V, H, T, E, L, A>()
    ensures { GivenGoesOn (types C Q V H T E L) A }
{}

/// A program goes on with what it reads and looks up, in the call that has noted it.
pub fn reads_go_on<C, Q, V, H, T, E, L, A>()
    ensures { ReadsGoOn (types C Q V H T E L) A }
{}

/// A program goes on where a reactive context is made, entered or left.
pub fn contexts_go_on<C, Q, V, H, T, E, L, A>()
    ensures { ContextsGoOn (types C Q V H T E L) A }
{}

/// A program goes on where a cell is made, written or dropped.
pub fn cells_go_on<C, Q, V, H, T, E, L, A>()
    ensures { CellsGoOn (types C Q V H T E L) A }
{}

/// A program goes on where it asks for something of a task, an effect or the suspense boundary.
pub fn tasks_go_on<C, Q, V, H, T, E, L, A>()
    ensures { TasksGoOn (types C Q V H T E L) A }
{}

/// A program goes on where it provides a context, marks a scope, or captures, throws or clears an
/// error.
pub fn errors_go_on<C, Q, V, H, T, E, L, A>()
    ensures { ErrorsGoOn (types C Q V H T E L) A }
{}

/// A program goes on with its hooks.
pub fn hooks_go_on<C, Q, V, H, T, E, L, A>()
    ensures { HooksGoOn (types C Q V H T E L) A }
{}
