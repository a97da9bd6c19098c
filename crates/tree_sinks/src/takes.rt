//! A sink that is given as one call, which takes an edit, and the sink of eight calls over it.
ghost use Rattle.std.specs.Prelude.{◌≡◌, ℕ, Option, List};
ghost use Rattle.rt_edits.specs.Sinks.{Takes};
ghost use Rattle.rt_edits.specs.declared.edit.Edit.{Edit};

use rt_edits::{DocNode, Edit, SinkError, WriteMutations};
use rt_values::{ElementId, List, Part, Text};
use std::alloc::Global;

/// Takes edits one by one, by one call. After an error the edit isn't taken.
pub trait TakesEdits: Drop {
    /// The edits taken so far, in order, where it tells them.
    ghost taken: { Self → Option (List Edit) };

    /// How often it has failed.
    ghost faults: { Self → ℕ };

    /// Takes an edit.
    fn take(&mut self, alloc: Global, edit: Edit) -> Result<(), SinkError>
        ensures takes { Takes edit (taken self.old) (taken self.new)
            (faults self.old) (faults self.new) result };
}

/// The sink of eight calls: each makes the edit, and hands it on.
#[derive(Drop)]
pub struct ByEdit<T: TakesEdits> {
    pub takes: T,
}

impl<T: TakesEdits> WriteMutations for ByEdit<T> {
    ghost taken = { λ sink. T.taken sink.takes };

    ghost faults = { λ sink. T.faults sink.takes };

    #[tactic(auto, using(crate::proofs::Wanted::no_more))]
    fn append_children(
        &mut self,
        alloc: Global,
        id: &ElementId,
        nodes: &List<DocNode>,
    ) -> Result<(), SinkError> {
        let nodes = nodes.copy(alloc)?;
        self.takes
            .take(alloc, Edit::AppendChildren { id: *id, nodes })
    }

    #[tactic(auto, using(crate::proofs::Wanted::no_more))]
    fn replace_node_with(
        &mut self,
        alloc: Global,
        id: &ElementId,
        nodes: &List<DocNode>,
    ) -> Result<(), SinkError> {
        let nodes = nodes.copy(alloc)?;
        self.takes
            .take(alloc, Edit::ReplaceNodeWith { id: *id, nodes })
    }

    #[tactic(auto, using(crate::proofs::Wanted::no_more))]
    fn insert_nodes_after(
        &mut self,
        alloc: Global,
        id: &ElementId,
        nodes: &List<DocNode>,
    ) -> Result<(), SinkError> {
        let nodes = nodes.copy(alloc)?;
        self.takes
            .take(alloc, Edit::InsertNodesAfter { id: *id, nodes })
    }

    fn remove_node(&mut self, alloc: Global, id: &ElementId) -> Result<(), SinkError> {
        self.takes.take(alloc, Edit::RemoveNode { id: *id })
    }

    #[tactic(auto, using(crate::proofs::Wanted::no_more))]
    fn set_node_text(
        &mut self,
        alloc: Global,
        id: &ElementId,
        text: &Text,
    ) -> Result<(), SinkError> {
        let text = text.copy(alloc)?;
        self.takes.take(alloc, Edit::SetNodeText { id: *id, text })
    }

    #[tactic(auto, using(crate::proofs::Wanted::no_more))]
    fn set_attribute(
        &mut self,
        alloc: Global,
        id: &ElementId,
        name: &Text,
        namespace: &Option<Text>,
        value: &Option<Text>,
    ) -> Result<(), SinkError> {
        let edit = Edit::SetAttribute {
            id: *id,
            name: name.copy(alloc)?,
            namespace: namespace.copy(alloc)?,
            value: value.copy(alloc)?,
        };
        self.takes.take(alloc, edit)
    }

    #[tactic(auto, using(crate::proofs::Wanted::no_more))]
    fn create_event_listener(
        &mut self,
        alloc: Global,
        id: &ElementId,
        name: &Text,
    ) -> Result<(), SinkError> {
        let name = name.copy(alloc)?;
        self.takes
            .take(alloc, Edit::CreateEventListener { id: *id, name })
    }

    #[tactic(auto, using(crate::proofs::Wanted::no_more))]
    fn remove_event_listener(
        &mut self,
        alloc: Global,
        id: &ElementId,
        name: &Text,
    ) -> Result<(), SinkError> {
        let name = name.copy(alloc)?;
        self.takes
            .take(alloc, Edit::RemoveEventListener { id: *id, name })
    }
}
