//! A sink that fails at calls of given numbers.
ghost use Rattle.std.specs.Prelude.{◌≡◌, ◌≤◌, ◌<◌, ◌+◌, ◌++◌, ◌∷◌, ◌==◌, ◌↔◌, Some, [], OnOk, OnErr, IsErrOf, IfErr, IsTrue, is_ok};
ghost use Rattle.rt_edits.specs.Sinks.{Takes, failures, fails_at};
ghost use Rattle.rt_edits.specs.declared.edit.Edit.TheVariants as edits;

use crate::doc_node::DocNode;
use crate::edit::Edit;
use crate::sink::{SinkError, WriteMutations};
use rt_values::{ElementId, List, OutOfMemory, Text};
use std::alloc::Global;

/// Keeps the edits that it takes, and fails at the calls of given numbers, counted from 1.
#[derive(Drop)]
pub struct FailingMutations {
    edits: List<Edit>,
    calls: List<u64>,
    made: u64,
}

impl FailingMutations {
    /// A sink that has taken nothing, and will fail at these calls.
    pub fn new(alloc: Global, calls: List<u64>) -> FailingMutations
        ensures taken { ⟦<FailingMutations as WriteMutations>⟧.taken result ≡ Some [] }
        ensures calls { result.calls ≡ calls }
        ensures made { result.made ≡ 0 }
    {
        FailingMutations {
            edits: List::new(alloc),
            calls,
            made: 0,
        }
    }

    /// What it took, in order.
    pub fn edits(&self) -> &[Edit]
        ensures taken { ⟦<FailingMutations as WriteMutations>⟧.taken self.now ≡ Some result.now }
    {
        self.edits.as_slice()
    }

    /// Counts a call, and fails at those of the given numbers. Calls past the last number aren't
    /// counted.
    #[tactic(auto, using(crate::proofs::Failures::steps))]
    fn count(&mut self) -> Result<(), SinkError>
        ensures edits { self.new.edits ≡ self.old.edits }
        ensures calls { self.new.calls ≡ self.old.calls }
        ensures later { failures self.old.calls self.old.made ≤
            failures self.new.calls self.new.made }
        ensures cause { IfErr result (λ error. failures self.old.calls self.old.made <
            failures self.new.calls self.new.made) }
        ensures counted { self.old.made < u64.MAX → self.new.made ≡ self.old.made + 1 }
        ensures fails { self.old.made < u64.MAX →
            IsErrOf result SinkError.Failed ↔ IsTrue (fails_at self.old.calls (self.old.made + 1)) }
        ensures failed { IfErr result (λ error. error ≡ SinkError.Failed) }
    {
        if self.made == u64::MAX {
            return Ok(());
        }
        self.made += 1;
        if self.calls.as_slice().contains(&self.made) {
            return Err(SinkError::Failed);
        }
        Ok(())
    }

    fn keep(&mut self, edit: Edit) -> Result<(), OutOfMemory>
        ensures ok { OnOk result (self.new.edits ≡ self.old.edits ++ edit ∷ []) }
        ensures err { OnErr result (self.new.edits ≡ self.old.edits) }
        ensures calls { self.new.calls ≡ self.old.calls }
        ensures made { self.new.made ≡ self.old.made }
    {
        self.edits.push(edit)
    }
}

impl WriteMutations for FailingMutations {
    ghost taken = { λ sink. Some sink.edits };

    ghost faults = { λ sink. failures sink.calls sink.made };

    fn append_children(
        &mut self,
        alloc: Global,
        id: &ElementId,
        nodes: &List<DocNode>,
    ) -> Result<(), SinkError>
        ensures takes { Takes (edits.AppendChildren id.now nodes.now)
            (Some self.old.edits) (Some self.new.edits)
            (failures self.old.calls self.old.made) (failures self.new.calls self.new.made) result }
        ensures fails { self.old.made < u64.MAX →
            IsErrOf result SinkError.Failed ↔ IsTrue (fails_at self.old.calls (self.old.made + 1)) }
        ensures calls { self.new.calls ≡ self.old.calls }
        ensures counted { self.old.made < u64.MAX → self.new.made ≡ self.old.made + 1 }
    {
        self.count()?;
        self.keep(Edit::appended(alloc, *id, nodes)?)?;
        Ok(())
    }

    fn replace_node_with(
        &mut self,
        alloc: Global,
        id: &ElementId,
        nodes: &List<DocNode>,
    ) -> Result<(), SinkError>
        ensures takes { Takes (edits.ReplaceNodeWith id.now nodes.now)
            (Some self.old.edits) (Some self.new.edits)
            (failures self.old.calls self.old.made) (failures self.new.calls self.new.made) result }
        ensures fails { self.old.made < u64.MAX →
            IsErrOf result SinkError.Failed ↔ IsTrue (fails_at self.old.calls (self.old.made + 1)) }
        ensures calls { self.new.calls ≡ self.old.calls }
        ensures counted { self.old.made < u64.MAX → self.new.made ≡ self.old.made + 1 }
    {
        self.count()?;
        self.keep(Edit::replaced(alloc, *id, nodes)?)?;
        Ok(())
    }

    fn insert_nodes_after(
        &mut self,
        alloc: Global,
        id: &ElementId,
        nodes: &List<DocNode>,
    ) -> Result<(), SinkError>
        ensures takes { Takes (edits.InsertNodesAfter id.now nodes.now)
            (Some self.old.edits) (Some self.new.edits)
            (failures self.old.calls self.old.made) (failures self.new.calls self.new.made) result }
        ensures fails { self.old.made < u64.MAX →
            IsErrOf result SinkError.Failed ↔ IsTrue (fails_at self.old.calls (self.old.made + 1)) }
        ensures calls { self.new.calls ≡ self.old.calls }
        ensures counted { self.old.made < u64.MAX → self.new.made ≡ self.old.made + 1 }
    {
        self.count()?;
        self.keep(Edit::inserted(alloc, *id, nodes)?)?;
        Ok(())
    }

    fn remove_node(&mut self, _alloc: Global, id: &ElementId) -> Result<(), SinkError>
        ensures takes { Takes (edits.RemoveNode id.now)
            (Some self.old.edits) (Some self.new.edits)
            (failures self.old.calls self.old.made) (failures self.new.calls self.new.made) result }
        ensures fails { self.old.made < u64.MAX →
            IsErrOf result SinkError.Failed ↔ IsTrue (fails_at self.old.calls (self.old.made + 1)) }
        ensures calls { self.new.calls ≡ self.old.calls }
        ensures counted { self.old.made < u64.MAX → self.new.made ≡ self.old.made + 1 }
    {
        self.count()?;
        self.keep(Edit::RemoveNode { id: *id })?;
        Ok(())
    }

    fn set_node_text(&mut self, alloc: Global, id: &ElementId, text: &Text) -> Result<(), SinkError>
        ensures takes { Takes (edits.SetNodeText id.now text.now)
            (Some self.old.edits) (Some self.new.edits)
            (failures self.old.calls self.old.made) (failures self.new.calls self.new.made) result }
        ensures fails { self.old.made < u64.MAX →
            IsErrOf result SinkError.Failed ↔ IsTrue (fails_at self.old.calls (self.old.made + 1)) }
        ensures calls { self.new.calls ≡ self.old.calls }
        ensures counted { self.old.made < u64.MAX → self.new.made ≡ self.old.made + 1 }
    {
        self.count()?;
        self.keep(Edit::written(alloc, *id, text)?)?;
        Ok(())
    }

    fn set_attribute(
        &mut self,
        alloc: Global,
        id: &ElementId,
        name: &Text,
        namespace: &Option<Text>,
        value: &Option<Text>,
    ) -> Result<(), SinkError>
        ensures takes { Takes (edits.SetAttribute id.now name.now namespace.now value.now)
            (Some self.old.edits) (Some self.new.edits)
            (failures self.old.calls self.old.made) (failures self.new.calls self.new.made) result }
        ensures fails { self.old.made < u64.MAX →
            IsErrOf result SinkError.Failed ↔ IsTrue (fails_at self.old.calls (self.old.made + 1)) }
        ensures calls { self.new.calls ≡ self.old.calls }
        ensures counted { self.old.made < u64.MAX → self.new.made ≡ self.old.made + 1 }
    {
        self.count()?;
        self.keep(Edit::set(alloc, *id, name, namespace, value)?)?;
        Ok(())
    }

    fn create_event_listener(
        &mut self,
        alloc: Global,
        id: &ElementId,
        name: &Text,
    ) -> Result<(), SinkError>
        ensures takes { Takes (edits.CreateEventListener id.now name.now)
            (Some self.old.edits) (Some self.new.edits)
            (failures self.old.calls self.old.made) (failures self.new.calls self.new.made) result }
        ensures fails { self.old.made < u64.MAX →
            IsErrOf result SinkError.Failed ↔ IsTrue (fails_at self.old.calls (self.old.made + 1)) }
        ensures calls { self.new.calls ≡ self.old.calls }
        ensures counted { self.old.made < u64.MAX → self.new.made ≡ self.old.made + 1 }
    {
        self.count()?;
        self.keep(Edit::created(alloc, *id, name)?)?;
        Ok(())
    }

    fn remove_event_listener(
        &mut self,
        alloc: Global,
        id: &ElementId,
        name: &Text,
    ) -> Result<(), SinkError>
        ensures takes { Takes (edits.RemoveEventListener id.now name.now)
            (Some self.old.edits) (Some self.new.edits)
            (failures self.old.calls self.old.made) (failures self.new.calls self.new.made) result }
        ensures fails { self.old.made < u64.MAX →
            IsErrOf result SinkError.Failed ↔ IsTrue (fails_at self.old.calls (self.old.made + 1)) }
        ensures calls { self.new.calls ≡ self.old.calls }
        ensures counted { self.old.made < u64.MAX → self.new.made ≡ self.old.made + 1 }
    {
        self.count()?;
        self.keep(Edit::ended(alloc, *id, name)?)?;
        Ok(())
    }
}
