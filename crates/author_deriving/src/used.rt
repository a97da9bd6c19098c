//! The memos and resources of a scope, whose cells its hooks keep.
ghost use Rattle.std.specs.Prelude.{◌≡◌, ◌<◌, ◌-◌, false, true, Some, IfOk};
ghost use Rattle.author_bodies.specs.Comes.{Comes, Knows};
ghost use Rattle.author_programs.specs.Cells as programs;
ghost use Rattle.author_formulas.specs.Memos as memos;

use crate::formulas::HasMemo;
use crate::task::MemoTask;
use author_bodies::{KeepsCells, unless_refused};
use author_calls::BodyCx;
use rt_values::OutOfMemory;
use std::alloc::Global;

/// The cell of a memo of the scope. It is made at the scope's first run, with the empty value and
/// the task that keeps it, and found again later; none where a call was refused.
pub fn use_memo<P: KeepsCells, S: HasMemo<P>>(
    app: &S,
    alloc: Global,
    cx: &mut BodyCx<'_, P>,
    formula: S::Formula,
) -> Result<Option<u64>, OutOfMemory>
    ensures came { IfOk result (λ cell. Knows cell cx.new (Comes cx.old cx.new
        (memos.own_memo P.keeping S.state (S.formulas app.now).empty formula false) cell)) }
    ensures world { cx.new.world ≡ cx.old.world }
{
    own_memo(app, alloc, cx, formula, false)
}

/// The cell of a resource of the scope. It is made at the scope's first run, with the empty value
/// and the task that loads it, and found again later; none where a call was refused.
pub fn use_resource<P: KeepsCells, S: HasMemo<P>>(
    app: &S,
    alloc: Global,
    cx: &mut BodyCx<'_, P>,
    formula: S::Formula,
) -> Result<Option<u64>, OutOfMemory>
    ensures came { IfOk result (λ cell. Knows cell cx.new (Comes cx.old cx.new
        (memos.own_memo P.keeping S.state (S.formulas app.now).empty formula true) cell)) }
    ensures world { cx.new.world ≡ cx.old.world }
{
    own_memo(app, alloc, cx, formula, true)
}

/// The cell of a memo or of a resource.
#[tactic(auto, using(author_bodies::proofs::Rules::hooking))]
fn own_memo<P: KeepsCells, S: HasMemo<P>>(
    app: &S,
    alloc: Global,
    cx: &mut BodyCx<'_, P>,
    formula: S::Formula,
    loads: bool,
) -> Result<Option<u64>, OutOfMemory>
    ensures came { IfOk result (λ cell. Knows cell cx.new (Comes cx.old cx.new
        (memos.own_memo P.keeping S.state (S.formulas app.now).empty formula loads) cell)) }
    ensures world { cx.new.world ≡ cx.old.world }
{
    if !cx.hook_is_new() {
        return Ok(kept_cell(alloc, cx, 0)?);
    }
    let empty = app.empty(alloc)?;
    match unless_refused(cx.new_cell(empty))? {
        Some(cell) => Ok(made_memo::<P, S>(alloc, cx, formula, loads, cell)?),
        None => Ok(None),
    }
}

/// The cell that was just made, once it has its task.
#[tactic(auto, using(author_bodies::proofs::Rules::spawning))]
fn made_memo<P: KeepsCells, S: HasMemo<P>>(
    alloc: Global,
    cx: &mut BodyCx<'_, P>,
    formula: S::Formula,
    loads: bool,
    cell: u64,
) -> Result<Option<u64>, OutOfMemory>
    ensures came { IfOk result (λ kept. Knows kept cx.new (Comes cx.old cx.new
        (memos.made_memo P.keeping S.state formula loads (Some cell)) kept)) }
    ensures world { cx.new.world ≡ cx.old.world }
{
    let state = S::memo_state(MemoTask::Fresh {
        cell,
        formula,
        loads,
    });
    match unless_refused(cx.spawn_isomorphic(state))? {
        Some(_task) => Ok(kept_cell(alloc, cx, cell)?),
        None => Ok(None),
    }
}

/// The cell that the next hook keeps; none where another hook stands there.
#[tactic(auto, using(author_bodies::proofs::Rules::hooking))]
fn kept_cell<P: KeepsCells>(
    alloc: Global,
    cx: &mut BodyCx<'_, P>,
    number: u64,
) -> Result<Option<u64>, OutOfMemory>
    ensures came { IfOk result (λ cell. Knows cell cx.new (Comes cx.old cx.new
        (programs.kept_cell P.keeping number) cell)) }
    ensures world { cx.new.world ≡ cx.old.world }
{
    let value = P::keep_cell(alloc, number)?;
    match unless_refused(cx.use_hook(alloc, P::cell_kind(), value))? {
        Some(value) => Ok(P::cell_in(&value)),
        None => Ok(None),
    }
}
