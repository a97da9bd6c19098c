//! A sink of edits that keeps the line that is printed of each.
ghost use Rattle.std.specs.Prelude.{◌≡◌, ◌++◌, ◌∷◌, [], Some, OnOk, OnErr};
ghost use Rattle.tree_edits.specs.Documents.{edit_of};
ghost use Rattle.rt_language.specs.Lines as language;
ghost use Rattle.rt_language.specs.Lines.{edit_text};
ghost use Rattle.show_print.specs.Taken.{AreLinesOf, edit_in, in_order, lines_of};

use crate::edits::{attribute_line, forest_line, listener_line, place_line, text_line};
use crate::taken::{Taken, Told};
use rt_edits::{DocNode, SinkError, WriteMutations};
use rt_values::{ElementId, List, OutOfMemory, Text};
use std::alloc::Global;
use std::snapshot::Snapshot;

/// Keeps the line of each edit that it takes, and no copy of the edit. It never fails but for want
/// of memory.
#[derive(Drop)]
pub struct EditLines {
    lines: List<List<u8>>,
    /// The edits that were taken. Contracts alone read them.
    taken: Taken,
    pub ghost printed: { lines ≡ lines_of (in_order taken) },
}

impl EditLines {
    /// A sink that has taken nothing.
    pub fn new(alloc: Global) -> EditLines
        ensures taken { ⟦<EditLines as WriteMutations>⟧.taken result ≡ Some [] }
    {
        EditLines {
            lines: List::new(alloc),
            taken: Taken::new(),
        }
    }

    /// The lines of the edits that it took, in order.
    pub fn lines(&self) -> &[List<u8>]
        ensures lines { AreLinesOf (⟦<EditLines as WriteMutations>⟧.taken self.now) result.now }
    {
        self.lines.as_slice()
    }

    /// Keeps the line of an edit that was taken.
    #[tactic(auto, using(crate::proofs::Orders::orders))]
    fn keep(&mut self, line: List<u8>, told: Told) -> Result<(), OutOfMemory>
        requires line { line ≡ language.line (edit_text (edit_of (edit_in told))) }
        ensures ok { OnOk result (in_order self.new.taken
            ≡ in_order self.old.taken ++ edit_in told ∷ []) }
        ensures err { OnErr result (self.new ≡ self.old) }
    {
        self.lines.push(line)?;
        self.taken.take(told);
        Ok(())
    }
}

impl WriteMutations for EditLines {
    ghost taken = { λ sink. Some (in_order sink.taken) };

    ghost faults = { λ _. 0 };

    fn append_children(
        &mut self,
        alloc: Global,
        id: &ElementId,
        nodes: &List<DocNode>,
    ) -> Result<(), SinkError> {
        let line = forest_line(alloc, "append ", id.0, nodes)?;
        self.keep(line, Told::Appended(*id, Snapshot::of(nodes)))?;
        Ok(())
    }

    fn replace_node_with(
        &mut self,
        alloc: Global,
        id: &ElementId,
        nodes: &List<DocNode>,
    ) -> Result<(), SinkError> {
        let line = forest_line(alloc, "replace ", id.0, nodes)?;
        self.keep(line, Told::Replaced(*id, Snapshot::of(nodes)))?;
        Ok(())
    }

    fn insert_nodes_after(
        &mut self,
        alloc: Global,
        id: &ElementId,
        nodes: &List<DocNode>,
    ) -> Result<(), SinkError> {
        let line = forest_line(alloc, "after ", id.0, nodes)?;
        self.keep(line, Told::Inserted(*id, Snapshot::of(nodes)))?;
        Ok(())
    }

    fn remove_node(&mut self, alloc: Global, id: &ElementId) -> Result<(), SinkError> {
        let line = place_line(alloc, "remove ", id.0)?;
        self.keep(line, Told::Removed(*id))?;
        Ok(())
    }

    fn set_node_text(
        &mut self,
        alloc: Global,
        id: &ElementId,
        text: &Text,
    ) -> Result<(), SinkError> {
        let line = text_line(alloc, id.0, text)?;
        self.keep(line, Told::Written(*id, Snapshot::of(text)))?;
        Ok(())
    }

    fn set_attribute(
        &mut self,
        alloc: Global,
        id: &ElementId,
        name: &Text,
        namespace: &Option<Text>,
        value: &Option<Text>,
    ) -> Result<(), SinkError> {
        let line = attribute_line(alloc, id.0, name, namespace, value)?;
        let told = Told::Set(
            *id,
            Snapshot::of(name),
            Snapshot::of(namespace),
            Snapshot::of(value),
        );
        self.keep(line, told)?;
        Ok(())
    }

    fn create_event_listener(
        &mut self,
        alloc: Global,
        id: &ElementId,
        name: &Text,
    ) -> Result<(), SinkError> {
        let line = listener_line(alloc, "listen ", id.0, name)?;
        self.keep(line, Told::Listened(*id, Snapshot::of(name)))?;
        Ok(())
    }

    fn remove_event_listener(
        &mut self,
        alloc: Global,
        id: &ElementId,
        name: &Text,
    ) -> Result<(), SinkError> {
        let line = listener_line(alloc, "unlisten ", id.0, name)?;
        self.keep(line, Told::Unlistened(*id, Snapshot::of(name)))?;
        Ok(())
    }
}
