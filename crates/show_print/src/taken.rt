//! Edits as a sink took them, which contracts alone read.
ghost use Rattle.std.specs.Prelude.{◌≡◌, ◌++◌, ◌∷◌, []};
ghost use Rattle.show_print.specs.Taken.{edit_in, in_order};

use rt_edits::DocNode;
use rt_values::{ElementId, List, Text};
use std::marker::Model;
use std::snapshot::Snapshot;

/// An edit as it was taken. What stands for its nodes and texts takes no memory.
#[derive(Drop)]
pub(crate) enum Told {
    Appended(ElementId, Snapshot<List<DocNode>>),
    Replaced(ElementId, Snapshot<List<DocNode>>),
    Inserted(ElementId, Snapshot<List<DocNode>>),
    Removed(ElementId),
    Written(ElementId, Snapshot<Text>),
    /// The name, the namespace and the value of an attribute.
    Set(ElementId, Snapshot<Text>, Snapshot<Option<Text>>, Snapshot<Option<Text>>),
    Listened(ElementId, Snapshot<Text>),
    Unlistened(ElementId, Snapshot<Text>),
}

/// The edits that a sink took, in order. What a contract reads of them takes no memory.
#[derive(Drop)]
pub(crate) struct Taken {
    last: Option<(Snapshot<Taken>, Told)>,
}

impl Model for Taken {
    ghost use Rattle.std.specs.Prelude.{List, length};
    ghost use Rattle.std.specs.Coded.{codes};
    ghost use Rattle.rt_edits.specs.contracts.doc_node.DocKind as kind;
    ghost use Rattle.rt_edits.specs.declared.edit.Edit.{Edit};
    ghost use Rattle.show_print.specs.Taken.{last_first};

    ghost Value = { List Edit };

    ghost coded = { Prim.hlevel (codes, kind.the_row.coded) };

    ghost view = { λ taken. last_first taken.last };

    ghost size = { length };

    ghost use Rattle.std.proofs.Common.{arith};

    ghost size_decreases = { λ taken h. Prim.grind (arith) };
}

impl Taken {
    /// Nothing was taken.
    pub(crate) fn new() -> Taken
        ensures none { in_order result ≡ [] }
    {
        Taken { last: None }
    }

    /// An edit is taken after the others.
    pub(crate) fn take(&mut self, told: Told)
        ensures taken { in_order self.new ≡ in_order self.old ++ edit_in told ∷ [] }
    {
        let before = Snapshot::of(self);
        self.last = Some((before, told));
    }
}
