//! What a call of an application leaves.
ghost use Rattle.std.specs.Prelude.{◌≡◌};

use rt_cells::{Cells, Source};
use rt_values::{List, ScopeId, Task};
use run_records::{Command, CxFault, Firsts, Rows};
use std::marker::Model;
use std::snapshot::Snapshot;
use tree_nodes::{Element, Parts};

/// What a call of an application leaves. Only `Cx::finish` makes one.
#[derive(Drop)]
pub struct Turn<P: Parts, T> {
    pub(crate) rows: Snapshot<Rows<P>>,
    pub(crate) cells: Snapshot<Cells<P::Value>>,
    pub(crate) first: Firsts,
    pub(crate) task: Option<Task>,
    pub(crate) rendering: bool,
    pub(crate) scope: ScopeId,
    /// What was read into reactive contexts, or by a call that is no body, in order.
    pub(crate) aside: List<Source>,
    pub(crate) parts: TurnParts<P, T>,
}

/// What a body leaves.
pub type BodyTurn<P> = Turn<P, Element<P>>;

/// The parts of a turn.
#[derive(Drop)]
pub struct TurnParts<P: Parts, T> {
    pub answer: T,
    /// What was read, in order.
    pub reads: List<Source>,
    /// What is to be done, in order.
    pub commands: List<Command<P>>,
    /// The next number of each counter after the call.
    pub next: Firsts,
    /// The first refusal of a call on the `Cx`.
    pub fault: Option<CxFault>,
}

impl<P: Parts, T> Model for Turn<P, T> {
    ghost use Rattle.author_calls.specs.Turn.{Left};
    ghost use Rattle.run_records.specs.World.{rows_in, boundaries_in};
    ghost use Rattle.run_records.specs.declared.command.Command.{Command};

    ghost Value = { Left P P.Component P.Props P.Value P.Handler P.TaskState P.Effect P.Payload T };

    ghost view = { λ t. record {
      world = record { scope = t.scope; rows = rows_in t.rows.value.table; boundaries = boundaries_in t.rows.value.table; cells = t.cells.value.cells; next = t.first; task = t.task; rendering = t.rendering };
      meaning = record { answer = t.parts.answer; reads = t.parts.reads; aside = t.aside; commands = t.parts.commands; next = t.parts.next; fault = t.parts.fault };
    } };
}

impl<P: Parts, T> Turn<P, T> {
    /// Takes the turn apart.
    pub fn parts(self) -> TurnParts<P, T>
        ensures answer { result.answer ≡ self.meaning.answer }
        ensures reads { result.reads ≡ self.meaning.reads }
        ensures commands { result.commands ≡ self.meaning.commands }
        ensures next { result.next ≡ self.meaning.next }
        ensures fault { result.fault ≡ self.meaning.fault }
    {
        let Turn {
            rows: _,
            cells: _,
            first: _,
            task: _,
            rendering: _,
            scope: _,
            aside: _,
            parts,
        } = self;
        parts
    }
}
