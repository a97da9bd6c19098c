//! When an edit is refused.
ghost use Rattle.std.specs.Prelude.{◌≡◌, [], IfOk, Some, None, if◌then◌else◌};
ghost use Rattle.std.specs.List.{list_any};
ghost use Rattle.rt_edits.specs.Nodes.{parts_of, is_text, numbers};
ghost use Rattle.rt_edits.specs.Document.{named, carried, is_append, is_element, listens, suits, repeats, fault_of, is_barred};

use crate::doc_node::{DocKind, DocNode, copy_nodes};
use crate::document::DocFault;
use crate::edit::Edit;
use crate::fresh::clashes;
use crate::ordered::place_of_listener;
use crate::search::find;
use rt_values::{List, OutOfMemory, Text};
use std::alloc::Global;

impl Edit {
    /// The number of the node that the edit names.
    pub(crate) fn number(&self) -> u64
        ensures named { result ≡ named self.now }
    {
        match self {
            Edit::AppendChildren { id, .. } => id.0,
            Edit::ReplaceNodeWith { id, .. } => id.0,
            Edit::InsertNodesAfter { id, .. } => id.0,
            Edit::RemoveNode { id } => id.0,
            Edit::SetNodeText { id, .. } => id.0,
            Edit::SetAttribute { id, .. } => id.0,
            Edit::CreateEventListener { id, .. } => id.0,
            Edit::RemoveEventListener { id, .. } => id.0,
        }
    }

    /// A copy of the nodes that the edit carries.
    pub(crate) fn copy_carried(&self, alloc: Global) -> Result<List<DocNode>, OutOfMemory>
        ensures carried { IfOk result (λ nodes. nodes ≡ carried self.now) }
    {
        match self {
            Edit::AppendChildren { nodes, .. } => copy_nodes(alloc, nodes.as_slice()),
            Edit::ReplaceNodeWith { nodes, .. } => copy_nodes(alloc, nodes.as_slice()),
            Edit::InsertNodesAfter { nodes, .. } => copy_nodes(alloc, nodes.as_slice()),
            Edit::RemoveNode { .. } => Ok(List::new(alloc)),
            Edit::SetNodeText { .. } => Ok(List::new(alloc)),
            Edit::SetAttribute { .. } => Ok(List::new(alloc)),
            Edit::CreateEventListener { .. } => Ok(List::new(alloc)),
            Edit::RemoveEventListener { .. } => Ok(List::new(alloc)),
        }
    }

    fn is_append(&self) -> bool
        ensures is_append { result ≡ is_append self.now }
    {
        match self {
            Edit::AppendChildren { .. } => true,
            Edit::ReplaceNodeWith { .. } => false,
            Edit::InsertNodesAfter { .. } => false,
            Edit::RemoveNode { .. } => false,
            Edit::SetNodeText { .. } => false,
            Edit::SetAttribute { .. } => false,
            Edit::CreateEventListener { .. } => false,
            Edit::RemoveEventListener { .. } => false,
        }
    }

    /// Whether the edit may be made of a node of this kind.
    fn suits(&self, kind: &DocKind) -> bool
        ensures suits { result ≡ suits self.now kind.now }
    {
        match self {
            Edit::AppendChildren { .. } => is_element(kind),
            Edit::ReplaceNodeWith { .. } => true,
            Edit::InsertNodesAfter { .. } => true,
            Edit::RemoveNode { .. } => true,
            Edit::SetNodeText { .. } => is_text(kind),
            Edit::SetAttribute { .. } => is_element(kind),
            Edit::CreateEventListener { name, .. } => is_element(kind) && !listens(kind, name),
            Edit::RemoveEventListener { name, .. } => listens(kind, name),
        }
    }

    /// Whether a number that the edit carries is 0, comes twice or is in the document.
    fn repeats(&self, document: &[DocNode]) -> bool
        ensures repeats { result ≡ repeats self.now document.now }
    {
        match self {
            Edit::AppendChildren { nodes, .. } => clashes(nodes.as_slice(), document),
            Edit::ReplaceNodeWith { nodes, .. } => clashes(nodes.as_slice(), document),
            Edit::InsertNodesAfter { nodes, .. } => clashes(nodes.as_slice(), document),
            Edit::RemoveNode { .. } => false,
            Edit::SetNodeText { .. } => false,
            Edit::SetAttribute { .. } => false,
            Edit::CreateEventListener { .. } => false,
            Edit::RemoveEventListener { .. } => false,
        }
    }
}

#[tactic(auto, using(crate::proofs::Rows::parts))]
fn is_element(kind: &DocKind) -> bool
    ensures is_element { result ≡ is_element kind.now }
{
    match kind {
        DocKind::Element { .. } => true,
        DocKind::Text(_) => false,
        DocKind::Placeholder => false,
    }
}

#[tactic(auto, using(crate::proofs::Rows::parts))]
fn is_text(kind: &DocKind) -> bool
    ensures is_text { result ≡ is_text kind.now }
{
    match kind {
        DocKind::Element { .. } => false,
        DocKind::Text(_) => true,
        DocKind::Placeholder => false,
    }
}

/// Whether an element listens to events of a name.
#[tactic(auto, using(crate::proofs::Rows::parts))]
fn listens(kind: &DocKind, name: &Text) -> bool
    ensures listens { result ≡ listens name.now (parts_of kind.now) }
{
    match kind {
        DocKind::Element { listeners, .. } => {
            place_of_listener(listeners.as_slice(), name).is_some()
        }
        DocKind::Text(_) => false,
        DocKind::Placeholder => false,
    }
}

/// The first fault of an edit, other than want of memory.
pub fn fault_in(document: &[DocNode], edit: &Edit) -> Option<DocFault>
    ensures fault { result ≡ fault_of edit.now document.now }
{
    let number = edit.number();
    if number == 0 {
        if !edit.is_append() {
            return Some(DocFault::WrongKind);
        }
    } else {
        match find(document, number) {
            Some(kind) => {
                if !edit.suits(kind) {
                    return Some(DocFault::WrongKind);
                }
            }
            None => return Some(DocFault::UnknownId),
        }
    }
    if edit.repeats(document) {
        return Some(DocFault::RepeatedId);
    }
    None
}
