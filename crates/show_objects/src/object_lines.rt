//! A sink of edits that keeps the object of each.
ghost use Rattle.std.specs.Prelude.{◌≡◌, [], Some};
ghost use Rattle.show_objects.specs.Lines.{lines_in};
ghost use Rattle.show_objects.specs.Objects.{object_form};

use crate::taken::Taken;
use rt_edits::{DocNode, SinkError, WriteMutations};
use rt_values::{ElementId, List, Text};
use std::alloc::Global;
use tree_sinks::ByEdit;

/// Keeps the line of JSON of each edit that it takes, and the edit. It never fails but for want of
/// memory.
#[derive(Drop)]
pub struct ObjectLines {
    sink: ByEdit<Taken>,
}

impl ObjectLines {
    /// A sink that has taken nothing.
    pub(crate) fn new(alloc: Global) -> ObjectLines
        ensures taken { ⟦<ObjectLines as WriteMutations>⟧.taken result ≡ Some [] }
    {
        ObjectLines {
            sink: ByEdit {
                takes: Taken::new(alloc),
            },
        }
    }

    /// The lines of the edits that it took, in order.
    pub(crate) fn lines(&self) -> &[List<u8>]
        ensures lines { result.now ≡ lines_in object_form self.now.sink.takes.edits.items }
    {
        self.sink.takes.lines()
    }
}

impl WriteMutations for ObjectLines {
    ghost taken = { λ lines. Some lines.sink.takes.edits.items };

    ghost faults = { λ _. 0 };

    fn append_children(
        &mut self,
        alloc: Global,
        id: &ElementId,
        nodes: &List<DocNode>,
    ) -> Result<(), SinkError> {
        self.sink.append_children(alloc, id, nodes)
    }

    fn replace_node_with(
        &mut self,
        alloc: Global,
        id: &ElementId,
        nodes: &List<DocNode>,
    ) -> Result<(), SinkError> {
        self.sink.replace_node_with(alloc, id, nodes)
    }

    fn insert_nodes_after(
        &mut self,
        alloc: Global,
        id: &ElementId,
        nodes: &List<DocNode>,
    ) -> Result<(), SinkError> {
        self.sink.insert_nodes_after(alloc, id, nodes)
    }

    fn remove_node(&mut self, alloc: Global, id: &ElementId) -> Result<(), SinkError> {
        self.sink.remove_node(alloc, id)
    }

    fn set_node_text(
        &mut self,
        alloc: Global,
        id: &ElementId,
        text: &Text,
    ) -> Result<(), SinkError> {
        self.sink.set_node_text(alloc, id, text)
    }

    fn set_attribute(
        &mut self,
        alloc: Global,
        id: &ElementId,
        name: &Text,
        namespace: &Option<Text>,
        value: &Option<Text>,
    ) -> Result<(), SinkError> {
        self.sink.set_attribute(alloc, id, name, namespace, value)
    }

    fn create_event_listener(
        &mut self,
        alloc: Global,
        id: &ElementId,
        name: &Text,
    ) -> Result<(), SinkError> {
        self.sink.create_event_listener(alloc, id, name)
    }

    fn remove_event_listener(
        &mut self,
        alloc: Global,
        id: &ElementId,
        name: &Text,
    ) -> Result<(), SinkError> {
        self.sink.remove_event_listener(alloc, id, name)
    }
}
