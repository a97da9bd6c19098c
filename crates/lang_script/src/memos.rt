//! What memos and resources of a source are of, as calls compute it.
ghost use Rattle.std.specs.Prelude.{◌≡◌, ◌++◌, ◌∷◌, [], IfOk};
ghost use Rattle.std.proofs.Common.{refl};
ghost use Rattle.author_bodies.specs.Comes.{Comes};
ghost use Rattle.author_deriving.specs.Task.{load_of, task_of};
ghost use Rattle.rt_language.specs.Expressions as language;
ghost use Rattle.rt_language.specs.Formulas as meanings;
ghost use Rattle.rt_language.proofs.Formulas.{expressions_look};
ghost use Rattle.lang_script.specs.Derivers.{deriver};

use crate::caller::{Caller, Frame};
use crate::evaluation::evaluate;
use crate::plain::plain_value;
use crate::script::Script;
use crate::state::TaskState;
use author_bodies::KeepsCells;
use author_calls::Cx;
use author_deriving::{HasMemo, Load, MemoApp, MemoTask};
use lang_syntax::Derived;
use lang_views::{Content, Deriving, Value};
use rt_values::{List, OutOfMemory, Part, copy_slice};
use std::alloc::Global;

/// The kind of the hook that keeps a cell.
pub(crate) const CELL: u32 = 3;

/// Who computes the memos and resources of a source.
#[derive(Clone, Copy, PartialEq, Eq)]
pub struct Deriver;

/// The number of a cell.
pub(crate) fn cell_in(value: &Value) -> Option<u64>
    ensures cell { result ≡ meanings.cell_in value.now }
{
    match value.content() {
        Content::Cell(cell) => Some(*cell),
        Content::None => None,
        Content::Number(_) => None,
        Content::Text(_) => None,
        Content::Task(_) => None,
    }
}

impl KeepsCells for Script {
    ghost keeping = { meanings.keeping };

    fn cell_kind() -> u32 {
        CELL
    }

    fn keep_cell(_alloc: Global, cell: u64) -> Result<Value, OutOfMemory> {
        Ok(Value::cell(cell))
    }

    fn cell_in(value: &Value) -> Option<u64> {
        cell_in(value)
    }
}

/// What is computed: the value of a memo, the key of a resource.
fn computed(
    alloc: Global,
    cx: &mut Cx<'_, Script>,
    formula: &Deriving,
) -> Result<Value, OutOfMemory>
    ensures came { IfOk result (λ value. Comes cx.old cx.new (meanings.computed_by formula.now) value) }
    ensures world { cx.new.world ≡ cx.old.world }
{
    let frame = Frame::new(alloc, Caller::Other, formula.held())?;
    let value = evaluate(alloc, cx, &frame, formula.computed())?;
    Ok(value)
}

/// Values with one more behind them.
fn with_one_more(alloc: Global, values: &[Value], last: &Value) -> Result<List<Value>, OutOfMemory>
    ensures values { IfOk result (λ all. all ≡ values.now ++ last.now ∷ []) }
{
    let mut all = copy_slice(alloc, values)?;
    all.push(last.copy(alloc)?)?;
    Ok(List::from_vec(all))
}

/// What is loaded for a key at a step.
#[tactic(auto, using(crate::proofs::Derivings::loading))]
fn loaded(
    alloc: Global,
    formula: &Deriving,
    key: &Value,
    step: u64,
) -> Result<Load<Value>, OutOfMemory>
    ensures loads { IfOk result (λ load. load_of load
        ≡ meanings.load_of formula.now.held formula.now.derived key.now step) }
{
    match formula.derived() {
        Derived::Value(_) => Ok(Load::Wait),
        Derived::Load { waits, value, .. } => {
            if step < *waits {
                return Ok(Load::Wait);
            }
            let held = with_one_more(alloc, formula.held(), key)?;
            let value = plain_value(alloc, held.as_slice(), value)?;
            Ok(Load::Done(value))
        }
    }
}

impl HasMemo<Script> for Deriver {
    type Formula = Deriving;

    ghost formulas = { λ _. meanings.formulas };

    ghost state = { λ task. language.Minding task };

    fn memo_state(task: MemoTask<Value, Deriving>) -> TaskState
        ensures state { result ≡ language.Minding (task_of task) }
    {
        TaskState::minding(task)
    }

    fn compute(
        &self,
        alloc: Global,
        formula: &Deriving,
        cx: &mut Cx<'_, Script>,
    ) -> Result<Value, OutOfMemory> {
        computed(alloc, cx, formula)
    }

    fn load(
        &self,
        alloc: Global,
        formula: &Deriving,
        key: &Value,
        step: u64,
    ) -> Result<Load<Value>, OutOfMemory> {
        loaded(alloc, formula, key, step)
    }

    fn empty(&self, _alloc: Global) -> Result<Value, OutOfMemory> {
        Ok(Value::none())
    }

    ghost look = { λ _. expressions_look };
}

impl MemoApp for Script {
    type Memos = Deriver;

    ghost memos = { λ _. deriver };

    ghost polls = { λ script task world. refl };
}
