//! The document: the tree of numbered nodes that edits take on.
ghost use Rattle.std.specs.Prelude.{◌≡◌, ◌++◌, [], IfErr, IfOk, OnOk, OnErr, Ok};

use crate::change::change_row;
use crate::doc_node::{DocNode, copy_nodes};
use crate::edit::Edit;
use crate::faults::fault_in;
use rt_values::{List, OutOfMemory};
use std::alloc::{AllocError, Global};
use std::marker::Model;

/// Why an edit is refused, in the order in which the causes are looked for.
#[derive(Clone, Copy, Debug, PartialEq, Eq)]
pub enum DocFault {
    /// The edit names a number that isn't 0 and isn't in the document.
    UnknownId,
    /// What the edit names isn't what such an edit changes.
    WrongKind,
    /// A carried number is 0, comes twice or is in the document.
    RepeatedId,
    /// There was no memory to do the edit.
    OutOfMemory,
}

impl From<OutOfMemory> for DocFault {
    ghost use Rattle.std.specs.Prelude.{◌≡◌};
    ghost use Rattle.rt_edits.specs.declared.document.DocFault.TheVariants.{OutOfMemory};

    ghost from_gives = { λ _ fault. fault ≡ OutOfMemory };

    fn from(_error: OutOfMemory) -> Self {
        DocFault::OutOfMemory
    }
}

impl From<AllocError> for DocFault {
    ghost use Rattle.std.specs.Prelude.{◌≡◌};
    ghost use Rattle.rt_edits.specs.declared.document.DocFault.TheVariants.{OutOfMemory};

    ghost from_gives = { λ _ fault. fault ≡ OutOfMemory };

    fn from(_error: AllocError) -> Self {
        DocFault::OutOfMemory
    }
}

/// The nodes below the root container, which is number 0.
#[derive(Drop)]
pub struct Document {
    nodes: Vec<DocNode>,
}

impl Model for Document {
    ghost use Rattle.std.specs.Prelude.{List};
    ghost use Rattle.std.specs.Coded.{codes};
    ghost use Rattle.rt_edits.specs.declared.doc_node.DocNode.{DocNode};
    ghost use Rattle.rt_edits.specs.contracts.doc_node.DocKind as kind;

    ghost Value = { List DocNode };

    ghost coded = { Prim.hlevel (codes, kind.the_row.coded) };

    ghost view = { λ document. document.nodes.items };
}

impl Document {
    ghost use Rattle.rt_edits.specs.Nodes.{changed};
    ghost use Rattle.rt_edits.specs.Document.{instead, apply, MayFail};
    ghost use Rattle.rt_edits.specs.Laws.{IsNumbered, ChangesOnly};

    /// A document without nodes.
    pub fn empty(alloc: Global) -> Document
        ensures empty { result ≡ [] }
    {
        Document {
            nodes: Vec::new(alloc),
        }
    }

    /// The root container's children, in order.
    pub fn nodes(&self) -> &[DocNode]
        ensures nodes { result.now ≡ self.now }
    {
        self.nodes.as_slice()
    }

    /// Makes an edit of a node below the root container.
    #[tactic(auto, using(crate::proofs::Found::changed_absent))]
    fn change(&mut self, number: u64, edit: Edit) -> Result<(), DocFault>
        ensures ok { OnOk result (self.new ≡ changed number (instead edit) self.old) }
        ensures cause { IfErr result (λ fault. fault ≡ DocFault.OutOfMemory) }
        ensures err { OnErr result (self.new ≡ self.old) }
    {
        change_row(&mut self.nodes, number, edit)?;
        Ok(())
    }

    /// Puts nodes after the root container's last child.
    fn extend(&mut self, nodes: List<DocNode>) -> Result<(), DocFault>
        ensures ok { OnOk result (self.new ≡ self.old ++ nodes) }
        ensures cause { IfErr result (λ fault. fault ≡ DocFault.OutOfMemory) }
        ensures err { OnErr result (self.new ≡ self.old) }
    {
        self.nodes.append(&mut nodes.into_vec())?;
        Ok(())
    }

    /// Makes an edit. A fault leaves the document as it was.
    pub fn apply(&mut self, alloc: Global, edit: &Edit) -> Result<(), DocFault>
        ensures ok { OnOk result (apply edit.now self.old ≡ Ok self.new) }
        ensures cause { IfErr result (λ fault. MayFail edit.now self.old fault) }
        ensures err { OnErr result (self.new ≡ self.old) }

        ensures numbered { OnOk result (IsNumbered self.old → IsNumbered self.new) }
        ensures elsewhere { OnOk result (ChangesOnly edit.now self.old self.new) }
    {
        self.make(alloc, edit)?;
        Ok(())
    }

    fn make(&mut self, alloc: Global, edit: &Edit) -> Result<(), DocFault>
        ensures ok { OnOk result (apply edit.now self.old ≡ Ok self.new) }
        ensures cause { IfErr result (λ fault. MayFail edit.now self.old fault) }
        ensures err { OnErr result (self.new ≡ self.old) }
    {
        if let Some(fault) = fault_in(&self.nodes, edit) {
            return Err(fault);
        }
        let number = edit.number();
        if number == 0 {
            let nodes = edit.copy_carried(alloc)?;
            return self.extend(nodes);
        }
        let edit = edit.copy(alloc)?;
        self.change(number, edit)
    }
}
