//! Laws of programs that only look, and of polls.
ghost use Rattle.rt_model.specs.OneLog.{types};
ghost use Rattle.author_formulas.specs.Looking.{LookingReads, LookingDecides};
ghost use Rattle.author_formulas.specs.Formulas.{Formulas};
ghost use Rattle.author_formulas.specs.Polls.{MemosPoll, MemosFirstPoll, FirstPollsRefused};
ghost use Rattle.author_formulas.specs.Loading.{ResourcesPoll, ResourcesFirstPoll};

/// Of its call a program that only looks leaves nothing but reads that were noted, so it gives no
/// command but reads into the context that it runs in.
pub fn looking_reads<C, P, V, H, T, E, L, A>()
    ensures { LookingReads (types C P V H T E L) A }
{}

/// Worlds that agree on the calling scope and those above it, and on the values of what a program
/// that only looks has looked at, give it the same answer.
pub fn looking_decides<C, P, V, H, T, E, L, A>()
    ensures { LookingDecides (types C P V H T E L) A }
{}

/// A poll of a memo empties its context, reads the sources of its formula into it, and writes its
/// cell unless that has the value.
pub fn memos_poll<C, P, V, H, T, E, L, F>()
    ensures { (a : Formulas (types C P V H T E L) F) → MemosPoll a }
{}

/// The first poll of a memo makes the context that wakes its task, and then does what each poll does.
pub fn memos_first_poll<C, P, V, H, T, E, L, F>()
    ensures { (a : Formulas (types C P V H T E L) F) → MemosFirstPoll a }
{}

/// Where no number is left for that context, a first poll leaves its task as it stood, asks for
/// nothing and is refused.
pub fn first_polls_refused<C, P, V, H, T, E, L, F>()
    ensures { (a : Formulas (types C P V H T E L) F) → FirstPollsRefused a }
{}

/// A poll of a resource empties its context and reads the sources of its formula into it, whose value
/// is its key. A new key empties its cell and begins to load; a resource that wasn't loaded yet takes
/// one step, and once that gives a value its cell is written.
pub fn resources_poll<C, P, V, H, T, E, L, F>()
    ensures { (a : Formulas (types C P V H T E L) F) → ResourcesPoll a }
{}

/// The first poll of a resource makes its context, and its key is a new one.
pub fn resources_first_poll<C, P, V, H, T, E, L, F>()
    ensures { (a : Formulas (types C P V H T E L) F) → ResourcesFirstPoll a }
{}
