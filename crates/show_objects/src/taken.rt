//! What takes edits one by one and keeps the object of each.
ghost use Rattle.std.specs.Prelude.{◌≡◌, ◌++◌, ◌∷◌, [], Some, OnOk, OnErr};
ghost use Rattle.show_answers.specs.Told.{ToldEdit};
ghost use Rattle.show_objects.specs.Lines.{lines_in};
ghost use Rattle.show_objects.specs.Objects.{object_form};
ghost use Rattle.tree_edits.specs.Documents.{edit_of};

use crate::edits::edit_object;
use rt_edits::{Edit, SinkError};
use rt_values::{List, OutOfMemory};
use std::alloc::Global;
use tree_sinks::TakesEdits;

/// Keeps the line of JSON of each edit that it takes, and the edit.
#[derive(Drop)]
pub(crate) struct Taken {
    lines: List<List<u8>>,
    edits: Vec<Edit>,
    pub ghost written: { lines ≡ lines_in object_form edits.items },
}

impl Taken {
    /// Nothing was taken.
    pub fn new(alloc: Global) -> Taken
        ensures taken { ⟦<Taken as TakesEdits>⟧.taken result ≡ Some [] }
    {
        Taken {
            lines: List::new(alloc),
            edits: Vec::new(alloc),
        }
    }

    /// The lines of the edits that it took, in order.
    pub fn lines(&self) -> &[List<u8>]
        ensures lines { result.now ≡ lines_in object_form self.now.edits.items }
    {
        self.lines.as_slice()
    }

    /// Keeps an edit and its line.
    #[tactic(auto, using(crate::proofs::Orders::orders))]
    fn keep(&mut self, line: List<u8>, edit: Edit) -> Result<(), OutOfMemory>
        requires line { line ≡ object_form (ToldEdit (edit_of edit)) }
        ensures ok { OnOk result (self.new.edits.items ≡ self.old.edits.items ++ edit ∷ []) }
        ensures err { OnErr result (self.new.edits.items ≡ self.old.edits.items) }
    {
        self.edits.reserve(1)?;
        self.lines.push(line)?;
        self.edits.push_reserved(edit);
        Ok(())
    }
}

impl TakesEdits for Taken {
    ghost taken = { λ sink. Some sink.edits.items };

    ghost faults = { λ _. 0 };

    fn take(&mut self, alloc: Global, edit: Edit) -> Result<(), SinkError> {
        let line = edit_object(alloc, &edit)?;
        self.keep(line, edit)?;
        Ok(())
    }
}
