//! Where edits are written. What a sink has taken is known to clauses where the sink tells it, and
//! each refusal that isn't want of memory raises its count of faults.
ghost use Rattle.std.specs.Prelude.{◌≡◌, ℕ, Option, List};
ghost use Rattle.rt_edits.specs.Sinks.{Takes};
ghost use Rattle.rt_edits.specs.declared.edit.Edit.{Edit};
ghost use Rattle.rt_edits.specs.declared.edit.Edit.TheVariants as edits;

use crate::doc_node::DocNode;
use rt_values::{ElementId, List, OutOfMemory, Text};
use std::alloc::Global;

/// Why a sink refuses an edit.
#[derive(Clone, Copy, Debug, PartialEq, Eq)]
pub enum SinkError {
    /// The sink itself failed.
    Failed,
    /// There was no memory to take the edit.
    OutOfMemory,
}

impl From<OutOfMemory> for SinkError {
    ghost use Rattle.std.specs.Prelude.{◌≡◌};
    ghost use Rattle.rt_edits.specs.declared.sink.SinkError.TheVariants.{OutOfMemory};

    ghost from_gives = { λ _ error. error ≡ OutOfMemory };

    fn from(_error: OutOfMemory) -> Self {
        SinkError::OutOfMemory
    }
}

/// A sink that takes edits one by one. After an error the edit isn't taken.
pub trait WriteMutations: Drop {
    /// The edits taken so far, in order, where the sink tells them.
    ghost taken: { Self → Option (List Edit) };

    /// How often the sink has failed.
    ghost faults: { Self → ℕ };

    /// Puts nodes after the last child of an element, or of the root container, which is number 0.
    fn append_children(
        &mut self,
        alloc: Global,
        id: &ElementId,
        nodes: &List<DocNode>,
    ) -> Result<(), SinkError>
        ensures takes { Takes (edits.AppendChildren id.now nodes.now)
            (taken self.old) (taken self.new) (faults self.old) (faults self.new) result };

    /// Puts nodes in the place of a node.
    fn replace_node_with(
        &mut self,
        alloc: Global,
        id: &ElementId,
        nodes: &List<DocNode>,
    ) -> Result<(), SinkError>
        ensures takes { Takes (edits.ReplaceNodeWith id.now nodes.now)
            (taken self.old) (taken self.new) (faults self.old) (faults self.new) result };

    /// Puts nodes after a node, beside it.
    fn insert_nodes_after(
        &mut self,
        alloc: Global,
        id: &ElementId,
        nodes: &List<DocNode>,
    ) -> Result<(), SinkError>
        ensures takes { Takes (edits.InsertNodesAfter id.now nodes.now)
            (taken self.old) (taken self.new) (faults self.old) (faults self.new) result };

    /// Takes a node away, with all that stands below it.
    fn remove_node(&mut self, alloc: Global, id: &ElementId) -> Result<(), SinkError>
        ensures takes { Takes (edits.RemoveNode id.now)
            (taken self.old) (taken self.new) (faults self.old) (faults self.new) result };

    /// Gives a text node another text.
    fn set_node_text(&mut self, alloc: Global, id: &ElementId, text: &Text) -> Result<(), SinkError>
        ensures takes { Takes (edits.SetNodeText id.now text.now)
            (taken self.old) (taken self.new) (faults self.old) (faults self.new) result };

    /// Gives an attribute of an element a value, or takes it away where there is none.
    fn set_attribute(
        &mut self,
        alloc: Global,
        id: &ElementId,
        name: &Text,
        namespace: &Option<Text>,
        value: &Option<Text>,
    ) -> Result<(), SinkError>
        ensures takes { Takes (edits.SetAttribute id.now name.now namespace.now value.now)
            (taken self.old) (taken self.new) (faults self.old) (faults self.new) result };

    /// Makes an element listen to events of a name.
    fn create_event_listener(
        &mut self,
        alloc: Global,
        id: &ElementId,
        name: &Text,
    ) -> Result<(), SinkError>
        ensures takes { Takes (edits.CreateEventListener id.now name.now)
            (taken self.old) (taken self.new) (faults self.old) (faults self.new) result };

    /// Makes an element listen to events of a name no more.
    fn remove_event_listener(
        &mut self,
        alloc: Global,
        id: &ElementId,
        name: &Text,
    ) -> Result<(), SinkError>
        ensures takes { Takes (edits.RemoveEventListener id.now name.now)
            (taken self.old) (taken self.new) (faults self.old) (faults self.new) result };
}
