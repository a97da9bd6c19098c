//! What follows once a formula was computed.
ghost use Rattle.std.specs.Prelude.{◌≡◌, IfOk, OnOk};
ghost use Rattle.rt_model.specs.World.{nothing};
ghost use Rattle.author_bodies.specs.Comes.{Comes};
ghost use Rattle.author_formulas.specs.Memos as memos;
ghost use Rattle.author_deriving.specs.Task.{task_of};

use crate::formulas::HasMemo;
use crate::task::{Load, MemoTask};
use author_bodies::{KeepsCells, or_out_of_memory};
use author_calls::Cx;
use rt_cells::ReactiveContext;
use rt_values::{OutOfMemory, Part};
use std::alloc::Global;

/// A cell, with the formula that it is kept by.
#[derive(Drop)]
struct Derived<F> {
    cell: u64,
    /// The context that the formula is computed in.
    context: ReactiveContext,
    formula: F,
}

/// What a resource loads for, the step that its next poll loads at, and whether it was loaded.
#[derive(Drop)]
struct Loading<V> {
    key: V,
    step: u64,
    done: bool,
}

/// What follows once the formula of a task was computed in the context: of a memo the value is that
/// of its cell, of a resource its key.
#[tactic(auto, using(author_bodies::proofs::Rules::hooking))]
pub(crate) fn settle<P: KeepsCells, S: HasMemo<P>>(
    app: &S,
    alloc: Global,
    cx: &mut Cx<'_, P>,
    context: ReactiveContext,
    task: MemoTask<P::Value, S::Formula>,
    value: P::Value,
) -> Result<MemoTask<P::Value, S::Formula>, OutOfMemory>
    ensures came { IfOk result (λ next. Comes cx.old cx.new
        (memos.settled (S.formulas app.now) context.0 (task_of task) value) (task_of next)) }
    ensures world { cx.new.world ≡ cx.old.world }
{
    match task {
        MemoTask::Fresh {
            cell,
            formula,
            loads,
        } => {
            let derived = Derived {
                cell,
                context,
                formula,
            };
            if loads {
                Ok(load_anew(app, alloc, cx, derived, value)?)
            } else {
                Ok(set_memo(app, alloc, cx, derived, value)?)
            }
        }
        MemoTask::Memo { cell, formula, .. } => {
            let derived = Derived {
                cell,
                context,
                formula,
            };
            Ok(set_memo(app, alloc, cx, derived, value)?)
        }
        MemoTask::Resource {
            cell,
            formula,
            key,
            step,
            done,
            ..
        } => {
            let derived = Derived {
                cell,
                context,
                formula,
            };
            let loading = Loading { key, step, done };
            Ok(load_for(app, alloc, cx, derived, loading, value)?)
        }
    }
}

/// Whether two values are equal.
fn is_same<P: KeepsCells, S: HasMemo<P>>(app: &S, left: &P::Value, right: &P::Value) -> bool
    ensures { result ≡ (S.formulas app.now).same left.now right.now }
{
    left.same(right)
}

/// Writes a cell, unless it has the value.
#[tactic(auto, using(author_bodies::proofs::Rules::hooking))]
fn set_to<P: KeepsCells, S: HasMemo<P>>(
    app: &S,
    alloc: Global,
    cx: &mut Cx<'_, P>,
    cell: u64,
    value: P::Value,
) -> Result<(), OutOfMemory>
    ensures came { OnOk result (Comes cx.old cx.new
        (memos.set_to (S.formulas app.now).same cell value) nothing) }
    ensures world { cx.new.world ≡ cx.old.world }
{
    if let Some(present) = or_out_of_memory(cx.read(alloc, cell))? {
        if is_same(app, &present, &value) {
            return Ok(());
        }
    }
    or_out_of_memory(cx.write(cell, value))
}

/// The cell of a memo is set to the value of its formula.
#[tactic(auto, using(author_bodies::proofs::Rules::hooking))]
fn set_memo<P: KeepsCells, S: HasMemo<P>>(
    app: &S,
    alloc: Global,
    cx: &mut Cx<'_, P>,
    derived: Derived<S::Formula>,
    value: P::Value,
) -> Result<MemoTask<P::Value, S::Formula>, OutOfMemory>
    ensures came { IfOk result (λ next. Comes cx.old cx.new
        (memos.memo_set (S.formulas app.now)
        derived.cell derived.context.0 derived.formula value) (task_of next)) }
    ensures world { cx.new.world ≡ cx.old.world }
{
    let Derived {
        cell,
        context,
        formula,
    } = derived;
    set_to(app, alloc, cx, cell, value)?;
    Ok(MemoTask::Memo {
        cell,
        context,
        formula,
    })
}

/// A resource whose key is the one that it had loads on. It begins to load for another one.
#[tactic(auto, using(author_bodies::proofs::Rules::hooking))]
fn load_for<P: KeepsCells, S: HasMemo<P>>(
    app: &S,
    alloc: Global,
    cx: &mut Cx<'_, P>,
    derived: Derived<S::Formula>,
    loading: Loading<P::Value>,
    key: P::Value,
) -> Result<MemoTask<P::Value, S::Formula>, OutOfMemory>
    ensures came { IfOk result (λ next. Comes cx.old cx.new
        (memos.loading_for (S.formulas app.now)
        derived.cell derived.context.0 derived.formula key loading.step loading.done
        ((S.formulas app.now).same loading.key key)) (task_of next)) }
    ensures world { cx.new.world ≡ cx.old.world }
{
    let Loading {
        key: had,
        step,
        done,
    } = loading;
    if is_same(app, &had, &key) {
        let loading = Loading { key, step, done };
        Ok(load_on(app, alloc, cx, derived, loading)?)
    } else {
        Ok(load_anew(app, alloc, cx, derived, key)?)
    }
}

/// A resource begins to load for a new key. Its cell is empty until that was loaded.
#[tactic(auto, using(author_bodies::proofs::Rules::hooking))]
fn load_anew<P: KeepsCells, S: HasMemo<P>>(
    app: &S,
    alloc: Global,
    cx: &mut Cx<'_, P>,
    derived: Derived<S::Formula>,
    key: P::Value,
) -> Result<MemoTask<P::Value, S::Formula>, OutOfMemory>
    ensures came { IfOk result (λ next. Comes cx.old cx.new
        (memos.loading_anew (S.formulas app.now)
        derived.cell derived.context.0 derived.formula key) (task_of next)) }
    ensures world { cx.new.world ≡ cx.old.world }
{
    let empty = app.empty(alloc)?;
    set_to(app, alloc, cx, derived.cell, empty)?;
    let loading = Loading {
        key,
        step: 0,
        done: false,
    };
    Ok(load_on(app, alloc, cx, derived, loading)?)
}

/// A resource takes one more step of loading for its key, unless it was loaded.
#[tactic(auto, using(author_bodies::proofs::Rules::hooking))]
fn load_on<P: KeepsCells, S: HasMemo<P>>(
    app: &S,
    alloc: Global,
    cx: &mut Cx<'_, P>,
    derived: Derived<S::Formula>,
    loading: Loading<P::Value>,
) -> Result<MemoTask<P::Value, S::Formula>, OutOfMemory>
    ensures came { IfOk result (λ next. Comes cx.old cx.new
        (memos.loading_on (S.formulas app.now)
        derived.cell derived.context.0 derived.formula
        loading.key loading.step loading.done) (task_of next)) }
    ensures world { cx.new.world ≡ cx.old.world }
{
    let Derived {
        cell,
        context,
        formula,
    } = derived;
    let Loading { key, step, done } = loading;
    if done {
        return Ok(MemoTask::Resource {
            cell,
            context,
            formula,
            key,
            step,
            done,
        });
    }
    match app.load(alloc, &formula, &key, step)? {
        Load::Wait => Ok(MemoTask::Resource {
            cell,
            context,
            formula,
            key,
            step: step.saturating_add(1),
            done: false,
        }),
        Load::Done(value) => {
            or_out_of_memory(cx.write(cell, value))?;
            Ok(MemoTask::Resource {
                cell,
                context,
                formula,
                key,
                step,
                done: true,
            })
        }
    }
}
