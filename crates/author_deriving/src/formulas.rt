//! What an application gives that has memos and resources.
ghost use Rattle.std.specs.Prelude.{◌≡◌, IfOk};
ghost use Rattle.author_bodies.specs.Comes.{Comes};
ghost use Rattle.author_deriving.specs.Task.{load_of, task_of};

use crate::task::{Load, MemoTask};
use author_bodies::KeepsCells;
use author_calls::Cx;
use rt_values::OutOfMemory;
use std::alloc::Global;

/// Who computes the memos and resources of an application: `P` is whose calls are made, for bodies
/// the `Bodied` of them.
pub trait HasMemo<P: KeepsCells>: Drop {
    ghost use Rattle.rt_model.specs.OneLog.{types};
    ghost use Rattle.author_formulas.specs.Formulas.{Formulas, FormulasLook};
    ghost use Rattle.author_formulas.specs.Memos.{MemoTask as TaskOf};

    /// What a memo or a resource is of.
    type Formula: Drop;

    /// What its formulas are.
    ghost formulas: { Self → Formulas
        (types P.Component P.Props P.Value P.Handler P.TaskState P.Effect P.Payload) Self.Formula };

    /// The state of a task of the application that is one of a memo or of a resource.
    ghost state: { TaskOf P.Value Self.Formula → P.TaskState };

    /// The state of such a task.
    fn memo_state(task: MemoTask<P::Value, Self::Formula>) -> P::TaskState
        ensures state { result ≡ state (task_of task) };

    /// The value of a memo, or the key of a resource.
    fn compute(
        &self,
        alloc: Global,
        formula: &Self::Formula,
        cx: &mut Cx<'_, P>,
    ) -> Result<P::Value, OutOfMemory>
        ensures came { IfOk result (λ value. Comes cx.old cx.new
            ((formulas self.now).computes formula.now) value) }
        ensures world { cx.new.world ≡ cx.old.world };

    /// What a resource has for a key at a step. The first step is 0.
    fn load(
        &self,
        alloc: Global,
        formula: &Self::Formula,
        key: &P::Value,
        step: u64,
    ) -> Result<Load<P::Value>, OutOfMemory>
        ensures loads { IfOk result (λ load. load_of load
            ≡ (formulas self.now).loads formula.now key.now step) };

    /// What a cell holds that has no value yet.
    fn empty(&self, alloc: Global) -> Result<P::Value, OutOfMemory>
        ensures empty { IfOk result (λ value. value ≡ (formulas self.now).empty) };

    /// Each formula only looks, and the test of values decides.
    ghost look: { (app : Self) → FormulasLook (formulas app) };
}
