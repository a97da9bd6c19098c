//! Whether suspended tasks remain.
ghost use Rattle.std.specs.Prelude.{◌≡◌};
ghost use Rattle.rt_model.specs.Rendering.{is_suspended_task, suspended_remains};
ghost use Rattle.run_records.specs.Kept.{each};
ghost use Rattle.run_state.specs.Names.{task_kind_of};
ghost use Rattle.run_state.specs.Mirror.{state_of, task_of};

use run_state::{State, TaskKind, TaskRow};
use tree_nodes::Parts;

/// Whether a task is live on which a body has suspended.
pub fn suspended_remains<P: Parts>(scopes: &State<P>) -> bool
    ensures remains { (g : _) → result ≡ suspended_remains (state_of g scopes.now).tasks }
{
    remains_in(scopes.tasks.as_slice())
}

/// Whether a body has suspended on one of these tasks.
fn remains_in<P: Parts>(tasks: &[(u64, TaskRow<P>)]) -> bool
    ensures { result ≡ suspended_remains (each task_of tasks.now) }
{
    for entry in tasks {
        if is_suspended_task(entry.1.kind) {
            return true;
        }
    }
    false
}

/// Whether a body has suspended on a task of this kind.
fn is_suspended_task(kind: TaskKind) -> bool
    ensures { result ≡ is_suspended_task (task_kind_of kind) }
{
    match kind {
        TaskKind::Suspended => true,
        TaskKind::ClientOnly => false,
        TaskKind::Isomorphic => false,
    }
}
