//! The sink that keeps what it takes, and the one that throws it away.
ghost use Rattle.std.specs.Prelude.{◌≡◌, Some, None, [], ◌∷◌, ◌++◌, IsOk, OnOk, OnErr};
ghost use Rattle.rt_edits.specs.Sinks.{Takes};
ghost use Rattle.rt_edits.specs.declared.edit.Edit.TheVariants as edits;

use crate::doc_node::DocNode;
use crate::edit::Edit;
use crate::sink::{SinkError, WriteMutations};
use rt_values::{ElementId, List, OutOfMemory, Text};
use std::alloc::Global;

/// Keeps the edits that it takes, and never fails but for want of memory.
#[derive(Debug, Drop)]
pub struct Mutations {
    edits: List<Edit>,
}

impl Mutations {
    /// A sink that has taken nothing.
    pub fn default_list(alloc: Global) -> Mutations
        ensures taken { ⟦<Mutations as WriteMutations>⟧.taken result ≡ Some [] }
    {
        Mutations {
            edits: List::new(alloc),
        }
    }

    /// What it took, in order.
    pub fn edits(&self) -> &[Edit]
        ensures taken { ⟦<Mutations as WriteMutations>⟧.taken self.now ≡ Some result.now }
    {
        self.edits.as_slice()
    }

    fn keep(&mut self, edit: Edit) -> Result<(), OutOfMemory>
        ensures ok { OnOk result (self.new.edits ≡ self.old.edits ++ edit ∷ []) }
        ensures err { OnErr result (self.new.edits ≡ self.old.edits) }
    {
        self.edits.push(edit)
    }
}

impl WriteMutations for Mutations {
    ghost taken = { λ sink. Some sink.edits };

    ghost faults = { λ _. 0 };

    fn append_children(
        &mut self,
        alloc: Global,
        id: &ElementId,
        nodes: &List<DocNode>,
    ) -> Result<(), SinkError> {
        self.keep(Edit::appended(alloc, *id, nodes)?)?;
        Ok(())
    }

    fn replace_node_with(
        &mut self,
        alloc: Global,
        id: &ElementId,
        nodes: &List<DocNode>,
    ) -> Result<(), SinkError> {
        self.keep(Edit::replaced(alloc, *id, nodes)?)?;
        Ok(())
    }

    fn insert_nodes_after(
        &mut self,
        alloc: Global,
        id: &ElementId,
        nodes: &List<DocNode>,
    ) -> Result<(), SinkError> {
        self.keep(Edit::inserted(alloc, *id, nodes)?)?;
        Ok(())
    }

    fn remove_node(&mut self, _alloc: Global, id: &ElementId) -> Result<(), SinkError> {
        self.keep(Edit::RemoveNode { id: *id })?;
        Ok(())
    }

    fn set_node_text(
        &mut self,
        alloc: Global,
        id: &ElementId,
        text: &Text,
    ) -> Result<(), SinkError> {
        self.keep(Edit::written(alloc, *id, text)?)?;
        Ok(())
    }

    fn set_attribute(
        &mut self,
        alloc: Global,
        id: &ElementId,
        name: &Text,
        namespace: &Option<Text>,
        value: &Option<Text>,
    ) -> Result<(), SinkError> {
        self.keep(Edit::set(alloc, *id, name, namespace, value)?)?;
        Ok(())
    }

    fn create_event_listener(
        &mut self,
        alloc: Global,
        id: &ElementId,
        name: &Text,
    ) -> Result<(), SinkError> {
        self.keep(Edit::created(alloc, *id, name)?)?;
        Ok(())
    }

    fn remove_event_listener(
        &mut self,
        alloc: Global,
        id: &ElementId,
        name: &Text,
    ) -> Result<(), SinkError> {
        self.keep(Edit::ended(alloc, *id, name)?)?;
        Ok(())
    }
}

/// Throws away what it takes, so it needs no memory and never fails.
#[derive(Clone, Copy, Debug)]
pub struct NoOpMutations;

impl WriteMutations for NoOpMutations {
    ghost taken = { λ _. None };

    ghost faults = { λ _. 0 };

    fn append_children(
        &mut self,
        _alloc: Global,
        _id: &ElementId,
        _nodes: &List<DocNode>,
    ) -> Result<(), SinkError>
        ensures takes { Takes (edits.AppendChildren _id.now _nodes.now) None None 0 0 result }
        ensures ok { IsOk result }
    {
        Ok(())
    }

    fn replace_node_with(
        &mut self,
        _alloc: Global,
        _id: &ElementId,
        _nodes: &List<DocNode>,
    ) -> Result<(), SinkError>
        ensures takes { Takes (edits.ReplaceNodeWith _id.now _nodes.now) None None 0 0 result }
        ensures ok { IsOk result }
    {
        Ok(())
    }

    fn insert_nodes_after(
        &mut self,
        _alloc: Global,
        _id: &ElementId,
        _nodes: &List<DocNode>,
    ) -> Result<(), SinkError>
        ensures takes { Takes (edits.InsertNodesAfter _id.now _nodes.now) None None 0 0 result }
        ensures ok { IsOk result }
    {
        Ok(())
    }

    fn remove_node(&mut self, _alloc: Global, _id: &ElementId) -> Result<(), SinkError>
        ensures takes { Takes (edits.RemoveNode _id.now) None None 0 0 result }
        ensures ok { IsOk result }
    {
        Ok(())
    }

    fn set_node_text(
        &mut self,
        _alloc: Global,
        _id: &ElementId,
        _text: &Text,
    ) -> Result<(), SinkError>
        ensures takes { Takes (edits.SetNodeText _id.now _text.now) None None 0 0 result }
        ensures ok { IsOk result }
    {
        Ok(())
    }

    fn set_attribute(
        &mut self,
        _alloc: Global,
        _id: &ElementId,
        _name: &Text,
        _namespace: &Option<Text>,
        _value: &Option<Text>,
    ) -> Result<(), SinkError>
        ensures takes { Takes (edits.SetAttribute _id.now _name.now _namespace.now _value.now)
            None None 0 0 result }
        ensures ok { IsOk result }
    {
        Ok(())
    }

    fn create_event_listener(
        &mut self,
        _alloc: Global,
        _id: &ElementId,
        _name: &Text,
    ) -> Result<(), SinkError>
        ensures takes { Takes (edits.CreateEventListener _id.now _name.now) None None 0 0 result }
        ensures ok { IsOk result }
    {
        Ok(())
    }

    fn remove_event_listener(
        &mut self,
        _alloc: Global,
        _id: &ElementId,
        _name: &Text,
    ) -> Result<(), SinkError>
        ensures takes { Takes (edits.RemoveEventListener _id.now _name.now) None None 0 0 result }
        ensures ok { IsOk result }
    {
        Ok(())
    }
}
