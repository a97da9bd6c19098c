//! The edits that take a document on.
ghost use Rattle.std.specs.Prelude.{◌≡◌, ◌↔◌, IsTrue, IfOk};
ghost use Rattle.rt_edits.specs.Sinks.{Takes};

use crate::doc_node::{DocNode, copy_nodes};
use crate::sink::{SinkError, WriteMutations};
use rt_values::{ElementId, List, OutOfMemory, Part, Text};
use std::alloc::Global;

/// One edit of a document. `id` names the node that it changes or stands beside.
#[derive(Debug, Drop)]
pub enum Edit {
    AppendChildren {
        id: ElementId,
        nodes: List<DocNode>,
    },
    ReplaceNodeWith {
        id: ElementId,
        nodes: List<DocNode>,
    },
    InsertNodesAfter {
        id: ElementId,
        nodes: List<DocNode>,
    },
    RemoveNode {
        id: ElementId,
    },
    SetNodeText {
        id: ElementId,
        text: Text,
    },
    /// Sets an attribute, or takes it away where `value` is none.
    SetAttribute {
        id: ElementId,
        name: Text,
        namespace: Option<Text>,
        value: Option<Text>,
    },
    CreateEventListener {
        id: ElementId,
        name: Text,
    },
    RemoveEventListener {
        id: ElementId,
        name: Text,
    },
}

impl Edit {
    /// Writes the edit to a sink, by the sink's call for it.
    pub fn write_to<M: WriteMutations>(&self, alloc: Global, to: &mut M) -> Result<(), SinkError>
        ensures takes { Takes self.now (M.taken to.old) (M.taken to.new)
            (M.faults to.old) (M.faults to.new) result }
    {
        match self {
            Edit::AppendChildren { id, nodes } => to.append_children(alloc, id, nodes),
            Edit::ReplaceNodeWith { id, nodes } => to.replace_node_with(alloc, id, nodes),
            Edit::InsertNodesAfter { id, nodes } => to.insert_nodes_after(alloc, id, nodes),
            Edit::RemoveNode { id } => to.remove_node(alloc, id),
            Edit::SetNodeText { id, text } => to.set_node_text(alloc, id, text),
            Edit::SetAttribute {
                id,
                name,
                namespace,
                value,
            } => to.set_attribute(alloc, id, name, namespace, value),
            Edit::CreateEventListener { id, name } => to.create_event_listener(alloc, id, name),
            Edit::RemoveEventListener { id, name } => to.remove_event_listener(alloc, id, name),
        }
    }

    /// An equal edit.
    pub fn copy(&self, alloc: Global) -> Result<Edit, OutOfMemory>
        ensures copy { IfOk result (λ copied. copied ≡ self.now) }
    {
        match self {
            Edit::AppendChildren { id, nodes } => Edit::appended(alloc, *id, nodes),
            Edit::ReplaceNodeWith { id, nodes } => Edit::replaced(alloc, *id, nodes),
            Edit::InsertNodesAfter { id, nodes } => Edit::inserted(alloc, *id, nodes),
            Edit::RemoveNode { id } => Ok(Edit::RemoveNode { id: *id }),
            Edit::SetNodeText { id, text } => Edit::written(alloc, *id, text),
            Edit::SetAttribute {
                id,
                name,
                namespace,
                value,
            } => Edit::set(alloc, *id, name, namespace, value),
            Edit::CreateEventListener { id, name } => Edit::created(alloc, *id, name),
            Edit::RemoveEventListener { id, name } => Edit::ended(alloc, *id, name),
        }
    }
}

impl Edit {
    /// Whether the two edits are equal.
    pub fn same(&self, other: &Edit) -> bool
        ensures same { IsTrue result ↔ (self.now ≡ other.now) }
    {
        match (self, other) {
            (
                Edit::AppendChildren { id, nodes },
                Edit::AppendChildren {
                    id: other_id,
                    nodes: other_nodes,
                },
            ) => *id == *other_id && nodes.same(other_nodes),
            (
                Edit::ReplaceNodeWith { id, nodes },
                Edit::ReplaceNodeWith {
                    id: other_id,
                    nodes: other_nodes,
                },
            ) => *id == *other_id && nodes.same(other_nodes),
            (
                Edit::InsertNodesAfter { id, nodes },
                Edit::InsertNodesAfter {
                    id: other_id,
                    nodes: other_nodes,
                },
            ) => *id == *other_id && nodes.same(other_nodes),
            (Edit::RemoveNode { id }, Edit::RemoveNode { id: other_id }) => *id == *other_id,
            (
                Edit::SetNodeText { id, text },
                Edit::SetNodeText {
                    id: other_id,
                    text: other_text,
                },
            ) => *id == *other_id && text.same(other_text),
            (
                Edit::SetAttribute {
                    id,
                    name,
                    namespace,
                    value,
                },
                Edit::SetAttribute {
                    id: other_id,
                    name: other_name,
                    namespace: other_namespace,
                    value: other_value,
                },
            ) => {
                *id == *other_id
                    && name.same(other_name)
                    && namespace.same(other_namespace)
                    && value.same(other_value)
            }
            (
                Edit::CreateEventListener { id, name },
                Edit::CreateEventListener {
                    id: other_id,
                    name: other_name,
                },
            ) => *id == *other_id && name.same(other_name),
            (
                Edit::RemoveEventListener { id, name },
                Edit::RemoveEventListener {
                    id: other_id,
                    name: other_name,
                },
            ) => *id == *other_id && name.same(other_name),
            _ => false,
        }
    }
}

impl Part for Edit {
    fn same(&self, other: &Edit) -> bool {
        Edit::same(self, other)
    }

    fn copy(&self, alloc: Global) -> Result<Edit, OutOfMemory> {
        Edit::copy(self, alloc)
    }
}

// The edits by copies of what they carry.
impl Edit {
    /// Appends copies of nodes to an element's children.
    pub(crate) fn appended(
        alloc: Global,
        id: ElementId,
        nodes: &List<DocNode>,
    ) -> Result<Edit, OutOfMemory>
        ensures edit { IfOk result (λ edit. edit ≡ Edit.AppendChildren id nodes.now) }
    {
        let nodes = copy_nodes(alloc, nodes.as_slice())?;
        Ok(Edit::AppendChildren { id, nodes })
    }

    /// Puts copies of nodes in the place of a node.
    pub(crate) fn replaced(
        alloc: Global,
        id: ElementId,
        nodes: &List<DocNode>,
    ) -> Result<Edit, OutOfMemory>
        ensures edit { IfOk result (λ edit. edit ≡ Edit.ReplaceNodeWith id nodes.now) }
    {
        let nodes = copy_nodes(alloc, nodes.as_slice())?;
        Ok(Edit::ReplaceNodeWith { id, nodes })
    }

    /// Puts copies of nodes after a node.
    pub(crate) fn inserted(
        alloc: Global,
        id: ElementId,
        nodes: &List<DocNode>,
    ) -> Result<Edit, OutOfMemory>
        ensures edit { IfOk result (λ edit. edit ≡ Edit.InsertNodesAfter id nodes.now) }
    {
        let nodes = copy_nodes(alloc, nodes.as_slice())?;
        Ok(Edit::InsertNodesAfter { id, nodes })
    }

    /// Gives a text node a copy of a text.
    pub(crate) fn written(alloc: Global, id: ElementId, text: &Text) -> Result<Edit, OutOfMemory>
        ensures edit { IfOk result (λ edit. edit ≡ Edit.SetNodeText id text.now) }
    {
        let text = text.copy(alloc)?;
        Ok(Edit::SetNodeText { id, text })
    }

    /// Gives an attribute a copy of a value, or takes it away.
    pub(crate) fn set(
        alloc: Global,
        id: ElementId,
        name: &Text,
        namespace: &Option<Text>,
        value: &Option<Text>,
    ) -> Result<Edit, OutOfMemory>
        ensures edit { IfOk result (λ edit. edit ≡
            Edit.SetAttribute id name.now namespace.now value.now) }
    {
        let name = name.copy(alloc)?;
        let namespace = namespace.copy(alloc)?;
        let value = value.copy(alloc)?;
        Ok(Edit::SetAttribute {
            id,
            name,
            namespace,
            value,
        })
    }

    /// Begins to listen to events of a copied name.
    pub(crate) fn created(alloc: Global, id: ElementId, name: &Text) -> Result<Edit, OutOfMemory>
        ensures edit { IfOk result (λ edit. edit ≡ Edit.CreateEventListener id name.now) }
    {
        let name = name.copy(alloc)?;
        Ok(Edit::CreateEventListener { id, name })
    }

    /// Ends to listen to events of a copied name.
    pub(crate) fn ended(alloc: Global, id: ElementId, name: &Text) -> Result<Edit, OutOfMemory>
        ensures edit { IfOk result (λ edit. edit ≡ Edit.RemoveEventListener id name.now) }
    {
        let name = name.copy(alloc)?;
        Ok(Edit::RemoveEventListener { id, name })
    }
}
