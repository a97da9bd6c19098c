//! The steps of a patch.

ghost use Rattle.std.specs.Prelude.{◌≡◌};

use rt_edits::Edit;
use rt_values::{ElementId, List, OutOfMemory, ScopeId};
use std::alloc::AllocFailed;
use tree_nodes::{Parts, Step, VComponent};

/// One step of a patch. `Nodes` and `Edit` come only where the block is shown.
#[derive(Drop)]
pub enum PatchStep<P: Parts> {
    /// A scope is to be made, and to be given with its nodes.
    Make(VComponent<P>),
    /// A child scope is fed.
    Feed {
        scope: ScopeId,
        component: VComponent<P>,
    },
    /// The present nodes of a scope are to be given.
    Nodes(ScopeId),
    Edit(Edit),
    /// A child scope goes.
    Remove(ScopeId),
    /// This number was drawn for a node at this place.
    Drawn {
        id: ElementId,
        steps: List<Step>,
        path: List<u8>,
    },
    /// The node with this number is no more.
    Gone {
        id: ElementId,
    },
    Done,
}

/// Why a patch gives no further step.
#[derive(Clone, Copy, Debug, PartialEq, Eq)]
pub enum TreeFault {
    OutOfMemory,
    /// All element numbers were drawn.
    IdsExhausted,
}

impl From<OutOfMemory> for TreeFault {
    ghost use Rattle.rt_tree.specs.declared.step.TreeFault.TheVariants.{OutOfMemory};

    ghost from_gives = { λ _ fault. fault ≡ OutOfMemory };

    fn from(_error: OutOfMemory) -> TreeFault {
        TreeFault::OutOfMemory
    }
}

impl<T: Drop> From<AllocFailed<T>> for TreeFault {
    ghost use Rattle.rt_tree.specs.declared.step.TreeFault.TheVariants.{OutOfMemory};

    ghost from_gives = { λ _ fault. fault ≡ OutOfMemory };

    fn from(_error: AllocFailed<T>) -> TreeFault {
        TreeFault::OutOfMemory
    }
}
