//! Laws of memos that stand.
ghost use Rattle.rt_model.specs.OneLog.{types};
ghost use Rattle.rt_model.specs.World.{Application};
ghost use Rattle.author_formulas.specs.Formulas.{Formulas};
ghost use Rattle.author_formulas.specs.Memos.{MemoTask};
ghost use Rattle.law_minding.specs.Minding.{MemosGoOn, OwedOrKept, PollsStand, WritesMind};
ghost use Rattle.law_minding.specs.Held.{HeldAreKept, LoggedHeldAreKept, PollsAreDone, SessionsKeep};
ghost use Rattle.law_minding.specs.Numbering.{CellsAreDrawn, MovesNumber, NextIsFree, TasksAreDrawn};
ghost use Rattle.law_minding.specs.Homes.{HomesAreLive};
ghost use Rattle.law_minding.specs.Unpolled.{FreshAreKept, FreshIsOwed, FreshStay};
ghost use Rattle.law_minding.specs.Sessions.{SessionsKeepMemos};
ghost use Rattle.law_minding.specs.Coming.{ComersStand, SpawnedStand};
ghost use Rattle.law_minding.specs.Settling.{CallsAreParts, SettledKeep};
ghost use Rattle.law_minding.specs.Tended.{TendedAreKept};
ghost use Rattle.law_minding.specs.Waking.{PollsAreCaused, PollsAreCausedThrough};
ghost use Rattle.law_minding.specs.Hiding.{RowsHideWrites};

use law_behavior::wakes_are_polled;

/// A poll of a memo leaves it standing: its cell holds what its formula comes to in the world of the
/// poll, and where the formula read that cell the task has a wake.
pub fn polls_stand<C, P, V, H, T, E, L, F>()
    ensures { (a : Formulas (types C P V H T E L) F) → PollsStand a }
{}

/// Where a change leaves a memo alone, and wakes its task where a source changes, the memo stands
/// from then on as it stood.
pub fn memos_go_on<C, P, V, H, T, E, L, F>()
    ensures { (a : Formulas (types C P V H T E L) F) → MemosGoOn a }
{}

/// A write of another cell minds a memo: where its context read that cell, its task is woken.
pub fn writes_mind<C, P, V, H, T, E, L>()
    ensures { WritesMind (types C P V H T E L) }
{}

/// Where nothing is owed, the cell of a memo that stands is the value of its formula in the present
/// world.
pub fn owed_or_kept<C, P, V, H, T, E, L, F>()
    ensures { (app : Application (types C P V H T E L)) (a : Formulas (types C P V H T E L) F)
        → OwedOrKept a app }
{
    wakes_are_polled::<C, P, V, H, T, E, L>();
}

/// That the rows of a context and of what is owed are as they were doesn't show that a source wasn't
/// written.
pub fn rows_hide_writes<C, P, V, H, T, E, L>()
    ensures { RowsHideWrites (types C P V H T E L) }
{}

/// A poll of a memo or of a resource that no fault ends does what the definitions' poll asks for, and
/// leaves the task where that answers.
pub fn polls_are_done<C, P, V, H, T, E, L, F>()
    ensures { (app : Application (types C P V H T E L)) (a : Formulas (types C P V H T E L) F)
        (state : MemoTask V F → T)
        → PollsAreDone a app state }
{}

/// From its first poll on a memo that nobody else touches is its formula's value wherever nothing is
/// owed and its task is active. So is a resource's key, and its cell is empty until what was loaded
/// for that key is there.
pub fn held_are_kept<C, P, V, H, T, E, L, F>()
    ensures { (app : Application (types C P V H T E L)) (a : Formulas (types C P V H T E L) F)
        (state : MemoTask V F → T)
        → HeldAreKept a app state }
{
    wakes_are_polled::<C, P, V, H, T, E, L>();
}

/// So it is along an accepted log, from the entry of the first poll on.
pub fn logged_held_are_kept<C, P, V, H, T, E, L, F>()
    ensures { (app : Application (types C P V H T E L)) (a : Formulas (types C P V H T E L) F)
        (state : MemoTask V F → T)
        → LoggedHeldAreKept a app state }
{
    wakes_are_polled::<C, P, V, H, T, E, L>();
}

/// And so it is after each report of a session.
pub fn sessions_keep<C, P, V, H, T, E, L, F>()
    ensures { (app : Application (types C P V H T E L)) (a : Formulas (types C P V H T E L) F)
        (state : MemoTask V F → T)
        → SessionsKeep a app state }
{
    wakes_are_polled::<C, P, V, H, T, E, L>();
}

/// The calls of a move number what they make from the next ones on, contexts below the next one
/// behind it.
pub fn moves_number<C, P, V, H, T, E, L>()
    ensures { (app : Application (types C P V H T E L)) → MovesNumber app }
{}

/// So at no machine that moves reach from a replay's start a context has the next number.
pub fn next_is_free<C, P, V, H, T, E, L>()
    ensures { (app : Application (types C P V H T E L)) → NextIsFree app }
{}

/// And the number of each task that is there was drawn.
pub fn tasks_are_drawn<C, P, V, H, T, E, L>()
    ensures { (app : Application (types C P V H T E L)) → TasksAreDrawn app }
{}

/// And so was that of each cell.
pub fn cells_are_drawn<C, P, V, H, T, E, L>()
    ensures { (app : Application (types C P V H T E L)) → CellsAreDrawn app }
{}

/// At each machine that moves reach from a replay's start the scope of a task that is there is live.
pub fn homes_are_live<C, P, V, H, T, E, L>()
    ensures { (app : Application (types C P V H T E L)) → HomesAreLive app }
{}

/// Along moves that don't poll it and spare it, a task that wasn't polled yet stands as it stood, and
/// is owed its first poll.
pub fn fresh_stay<C, P, V, H, T, E, L, F>()
    ensures { (app : Application (types C P V H T E L)) (a : Formulas (types C P V H T E L) F)
        (state : MemoTask V F → T)
        → FreshStay a app state }
{}

/// So where nothing is owed it is paused.
pub fn fresh_is_owed<C, P, V, H, T, E, L, F>()
    ensures { (app : Application (types C P V H T E L)) (state : MemoTask V F → T)
        → FreshIsOwed app state }
{
    wakes_are_polled::<C, P, V, H, T, E, L>();
}

/// A task that stands fresh at some report of a session, and is spared before its first poll and held
/// from there on, is kept at each later one.
pub fn fresh_are_kept<C, P, V, H, T, E, L, F>()
    ensures { (app : Application (types C P V H T E L)) (a : Formulas (types C P V H T E L) F)
        (state : MemoTask V F → T)
        → FreshAreKept a app state }
{
    wakes_are_polled::<C, P, V, H, T, E, L>();
}

/// So it is with the reports of a session: each poll is done as defined, who stands fresh is kept
/// after each report from its first poll on, and is paused where it wasn't polled.
pub fn sessions_keep_memos<C, P, V, H, T, E, L, F>()
    ensures { (app : Application (types C P V H T E L)) (a : Formulas (types C P V H T E L) F)
        (state : MemoTask V F → T)
        → SessionsKeepMemos a app state }
{
    wakes_are_polled::<C, P, V, H, T, E, L>();
}

/// A task that is spawned fresh, with its cell there, stands fresh behind the move that spawns it,
/// where it is there then and nobody else touched it in that move.
pub fn spawned_stand<C, P, V, H, T, E, L, F>()
    ensures { (app : Application (types C P V H T E L)) (a : Formulas (types C P V H T E L) F)
        (state : MemoTask V F → T)
        → SpawnedStand a app state }
{}

/// So it is at the end of moves, whichever of them spawns it, with an entry or without one.
pub fn comers_stand<C, P, V, H, T, E, L, F>()
    ensures { (app : Application (types C P V H T E L)) (a : Formulas (types C P V H T E L) F)
        (state : MemoTask V F → T)
        → ComersStand a app state }
{}

/// And so it is along all of a program's way with a runtime that it keeps, past calls that log no
/// entry, where these spare it too.
pub fn tended_are_kept<C, P, V, H, T, E, L, F>()
    ensures { (app : Application (types C P V H T E L)) (a : Formulas (types C P V H T E L) F)
        (state : MemoTask V F → T)
        → TendedAreKept a app state }
{
    wakes_are_polled::<C, P, V, H, T, E, L>();
}

/// Between the starts of two polls of a task something woke it: a wake, a resume, or a mark of a
/// source that one of its reactive contexts read.
pub fn polls_are_caused<C, P, V, H, T, E, L>()
    ensures { (app : Application (types C P V H T E L)) → PollsAreCaused app }
{}

/// A call of a kept runtime that took unit after unit is a look, moves that its log is made of, and
/// the test by which it ended.
pub fn calls_are_parts<C, P, V, H, T, E, L>()
    ensures { (app : Application (types C P V H T E L)) → CallsAreParts app }
{}

/// So in the state that a call leaves which settles, a memo that nobody else touched since its first
/// poll is its formula's value, and a resource shows what was loaded for its present key, where its
/// task is active.
pub fn settled_keep<C, P, V, H, T, E, L, F>()
    ensures { (app : Application (types C P V H T E L)) (a : Formulas (types C P V H T E L) F)
        (state : MemoTask V F → T)
        → SettledKeep a app state }
{
    wakes_are_polled::<C, P, V, H, T, E, L>();
}

/// And so it is along a program's way with a runtime that it keeps, past calls that log no entry.
pub fn polls_are_caused_through<C, P, V, H, T, E, L>()
    ensures { (app : Application (types C P V H T E L)) → PollsAreCausedThrough app }
{}
