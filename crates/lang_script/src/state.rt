//! Where tasks stand between two polls.
ghost use Rattle.std.specs.Prelude.{◌≡◌};
ghost use Rattle.rt_language.specs.Expressions as language;
ghost use Rattle.author_deriving.specs.Task.{task_of};
ghost use Rattle.lang_script.specs.States.{state_of};

use author_deriving::MemoTask;
use lang_views::{Deriving, Standing, Value};
use std::marker::Model;

/// The tasks of a source.
#[derive(Drop)]
pub(crate) enum TaskKind {
    /// One that runs its steps.
    Stepping(Standing),
    /// One that keeps the cell of a memo or of a resource.
    Minding(MemoTask<Value, Deriving>),
}

/// Where a task stands between two polls.
#[derive(Drop)]
pub struct TaskState {
    kind: TaskKind,
}

impl Model for TaskState {
    ghost use Rattle.std.specs.Coded.{codes};
    ghost use Rattle.rt_language.specs.Expressions as language;
    ghost use Rattle.lang_views.specs.contracts.formulas.Deriving as formula;

    ghost Value = { language.TaskState };

    ghost coded = { Prim.hlevel (codes, formula.the_row.coded) };

    ghost use Rattle.lang_script.specs.States.{state_of};

    ghost view = { λ state. state_of state.kind };
}

impl TaskState {
    /// A task that runs its steps.
    pub fn stepping(standing: Standing) -> TaskState
        ensures { result ≡ language.Stepping standing }
    {
        TaskState {
            kind: TaskKind::Stepping(standing),
        }
    }

    /// One that keeps a cell.
    pub(crate) fn minding(task: MemoTask<Value, Deriving>) -> TaskState
        ensures { result ≡ language.Minding (task_of task) }
    {
        TaskState {
            kind: TaskKind::Minding(task),
        }
    }

    /// Which of both it is.
    pub(crate) fn into_kind(self) -> TaskKind
        ensures { state_of result ≡ self }
    {
        let TaskState { kind } = self;
        kind
    }
}
