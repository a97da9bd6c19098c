//! Polls of memos and resources.
ghost use Rattle.std.specs.Prelude.{◌≡◌, Some, IfOk, OnOk};
ghost use Rattle.rt_model.specs.Program.{done};
ghost use Rattle.rt_model.specs.World.{pending};
ghost use Rattle.author_calls.specs.Answers.{step_of};
ghost use Rattle.author_bodies.specs.Comes.{Comes, ComesIfRemembered, Knows};
ghost use Rattle.author_programs.specs.Sequence.{go_on};
ghost use Rattle.author_formulas.specs.Memos as memos;
ghost use Rattle.author_deriving.specs.Task.{task_of, context_number};

use crate::formulas::HasMemo;
use crate::settled::settle;
use crate::task::MemoTask;
use author_bodies::{KeepsCells, or_out_of_memory, unless_refused};
use author_calls::{Cx, TaskStep};
use rt_cells::{ReactiveContext, Target};
use rt_values::{OutOfMemory, Task};
use std::alloc::Global;

/// Polls the task of a memo or of a resource: its formula is computed in its context, and a memo's
/// cell gets the value, a resource's what is loaded for it. Where no task is polled, or no context
/// was had, the task stands where it stood.
#[tactic(auto, using(author_bodies::proofs::Rules::reacting))]
pub fn poll_memo<P: KeepsCells, S: HasMemo<P>>(
    app: &S,
    alloc: Global,
    task: MemoTask<P::Value, S::Formula>,
    cx: &mut Cx<'_, P>,
) -> Result<MemoTask<P::Value, S::Formula>, OutOfMemory>
    ensures came { IfOk result (λ next. ComesIfRemembered cx.old cx.new
        (memos.memo_polled (S.formulas app.now) (task_of task)) (task_of next)) }
    ensures world { cx.new.world ≡ cx.old.world }
{
    match cx.current_task() {
        Some(polled) => Ok(poll_by(app, alloc, task, cx, polled)?),
        None => Ok(task),
    }
}

/// A step of a task that is one of a memo or of a resource: its poll, from where it stands then on.
#[tactic(auto, using(author_bodies::proofs::Rules::reacting))]
pub fn step_memo<P: KeepsCells, S: HasMemo<P>>(
    app: &S,
    alloc: Global,
    task: MemoTask<P::Value, S::Formula>,
    cx: &mut Cx<'_, P>,
) -> Result<TaskStep<P::TaskState>, OutOfMemory>
    ensures came { IfOk result (λ step. ComesIfRemembered cx.old cx.new
        (go_on (memos.memo_polled (S.formulas app.now) (task_of task))
        (λ next. done (pending (S.state next))))
        (step_of {C = P.Component} {Q = P.Props} {V = P.Value} {H = P.Handler} {E = P.Effect} {L = P.Payload} step)) }
    ensures world { cx.new.world ≡ cx.old.world }
{
    let next = poll_memo(app, alloc, task, cx)?;
    Ok(TaskStep::Pending(S::memo_state(next)))
}

/// A poll, by the task that is polled.
#[tactic(auto, using(author_bodies::proofs::Rules::reacting))]
fn poll_by<P: KeepsCells, S: HasMemo<P>>(
    app: &S,
    alloc: Global,
    task: MemoTask<P::Value, S::Formula>,
    cx: &mut Cx<'_, P>,
    polled: Task,
) -> Result<MemoTask<P::Value, S::Formula>, OutOfMemory>
    ensures came { IfOk result (λ next. ComesIfRemembered cx.old cx.new
        (memos.polled_by (S.formulas app.now) (task_of task) (Some polled.0)) (task_of next)) }
    ensures world { cx.new.world ≡ cx.old.world }
{
    let Some(context) = context_for(cx, &task, polled)? else {
        return Ok(task);
    };
    Ok(poll_in(app, alloc, task, cx, context)?)
}

/// A poll in the context of the task.
#[tactic(auto, using(author_bodies::proofs::Rules::reacting))]
fn poll_in<P: KeepsCells, S: HasMemo<P>>(
    app: &S,
    alloc: Global,
    task: MemoTask<P::Value, S::Formula>,
    cx: &mut Cx<'_, P>,
    context: ReactiveContext,
) -> Result<MemoTask<P::Value, S::Formula>, OutOfMemory>
    ensures came { IfOk result (λ next. Comes cx.old cx.new
        (memos.polled_in (S.formulas app.now) (task_of task) (Some context.0)) (task_of next)) }
    ensures world { cx.new.world ≡ cx.old.world }
{
    let value = computed_in(app, alloc, cx, context, formula_of(&task))?;
    Ok(settle(app, alloc, cx, context, task, value)?)
}

/// The formula of a task.
fn formula_of<V, F>(task: &MemoTask<V, F>) -> &F
    ensures { result.now ≡ memos.formula_of (task_of task.now) }
{
    match task {
        MemoTask::Fresh { formula, .. } => formula,
        MemoTask::Memo { formula, .. } => formula,
        MemoTask::Resource { formula, .. } => formula,
    }
}

/// The context of a task; a new one that wakes it, where it has none.
#[tactic(auto, using(author_bodies::proofs::Rules::reacting))]
fn context_for<P: KeepsCells, F>(
    cx: &mut Cx<'_, P>,
    task: &MemoTask<P::Value, F>,
    polled: Task,
) -> Result<Option<ReactiveContext>, OutOfMemory>
    ensures came { IfOk result (λ context. Knows context cx.new (Comes cx.old cx.new
        (memos.context_for (task_of task.now) polled.0) (context_number context))) }
    ensures world { cx.new.world ≡ cx.old.world }
{
    match task {
        MemoTask::Fresh { .. } => unless_refused(cx.new_context(Target::Task(polled))),
        MemoTask::Memo { context, .. } => Ok(Some(*context)),
        MemoTask::Resource { context, .. } => Ok(Some(*context)),
    }
}

/// The value of a formula, computed in a context that has no other source from then on.
#[tactic(auto, using(author_bodies::proofs::Rules::reacting))]
fn computed_in<P: KeepsCells, S: HasMemo<P>>(
    app: &S,
    alloc: Global,
    cx: &mut Cx<'_, P>,
    context: ReactiveContext,
    formula: &S::Formula,
) -> Result<P::Value, OutOfMemory>
    ensures came { IfOk result (λ value. Comes cx.old cx.new
        (memos.computed_in (S.formulas app.now) context.0 formula.now) value) }
    ensures world { cx.new.world ≡ cx.old.world }
{
    or_out_of_memory(cx.reset_and_run_in(context))?;
    let value = app.compute(alloc, formula, cx)?;
    or_out_of_memory(cx.leave())?;
    Ok(value)
}
