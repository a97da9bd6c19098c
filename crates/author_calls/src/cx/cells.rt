//! Cells: read, and made, written and dropped once the call has returned.
ghost use Rattle.std.specs.Prelude.{◌≡◌, ◌↔◌, IsTrue, IfOk, IfErr, OnOk, Err};
ghost use Rattle.rt_model.specs.Lists.{at};
ghost use Rattle.rt_model.specs.Program.{faults, says, drew_cell, value_in};
ghost use Rattle.rt_model.specs.World as model;
ghost use Rattle.rt_model.specs.World.{at_end};
ghost use Rattle.run_records.specs.Records.{world_of};
ghost use Rattle.author_calls.specs.Calls.{call_of};
ghost use Rattle.author_programs.specs.Reads.{read_value, read_call};
ghost use Rattle.author_calls.specs.Steps.{WantedMemory, LostMemory, DrawsNone, IsTold};

use crate::cx::Cx;
use crate::made::{copied, made_cell};
use rt_cells::Source;
use rt_values::{OutOfMemory, Part};
use run_records::{Command, Counter, CxFault};
use std::alloc::Global;
use tree_nodes::Parts;

impl<'a, P: Parts, K> Cx<'a, P, K> {
    /// The value of a cell, which is noted as read. A cell that the call made has its first value.
    /// A number that isn't drawn yet has none, and isn't noted. Refused for want of memory alone,
    /// which the turn keeps as its fault where it is the first. dioxus-core has no such call: cells
    /// are a library's there.
    pub fn read(&mut self, alloc: Global, cell: u64) -> Result<Option<P::Value>, CxFault>
        ensures value { IfOk result (λ value.
            value ≡ read_value (world_of self.old.world) (call_of self.old) cell) }
        ensures call { OnOk result (call_of self.new ≡ read_call (call_of self.old) cell) }
        ensures fault { OnOk result (self.new.fault ≡ self.old.fault) }
        ensures err { IfErr result (LostMemory self.old self.new) }
        ensures world { self.new.world ≡ self.old.world }
    {
        if cell >= self.next.cells {
            return Ok(None);
        }
        let value = self.value(alloc, cell);
        let value = self.or_refuse(value)?;
        self.note(Source::Cell(cell))?;
        Ok(value)
    }

    /// A copy of a cell's value.
    fn value(&self, alloc: Global, cell: u64) -> Result<Option<P::Value>, OutOfMemory>
        ensures { IfOk result (λ value. value ≡ value_in (world_of self.now.world)
            (at (call_of self.now).cells cell) cell) }
    {
        let commands = self.commands.as_slice();
        match made_cell(commands, cell) {
            Some(value) => Ok(Some(value.copy(alloc)?)),
            None => {
                let value = copied(alloc, self.cells.get(cell))?;
                Ok(value)
            }
        }
    }

    /// Makes a cell of the caller's scope, and answers its number. Refused where cells have no
    /// number left, and for want of memory; the turn keeps the first refusal as its fault, and
    /// nothing else changes. dioxus-core has no such call.
    #[tactic(auto, using(crate::proofs::Told::telling))]
    pub fn new_cell(&mut self, value: P::Value) -> Result<u64, CxFault>
        ensures value { IfOk result (λ cell. cell ≡ self.old.next.cells) }
        ensures call { OnOk result (call_of self.new ≡ drew_cell (call_of self.old) value) }
        ensures at_end { (result ≡ Err (CxFault.IdsExhausted Counter.Cells))
            ↔ IsTrue (at_end self.old.next.cells) }
        ensures fault { OnOk result (self.new.fault ≡ self.old.fault) }
        ensures err { IfErr result (DrawsNone Counter.Cells self.old self.new) }
        ensures told { IfErr result (IsTold
            (faults (call_of self.old) (model.CounterAtEnd model.Cells)) self.old self.new) }
        ensures world { self.new.world ≡ self.old.world }
    {
        let cell = self.next.cells;
        if cell == u64::MAX {
            return Err(self.refuse(CxFault::IdsExhausted {
                what: Counter::Cells,
            }));
        }
        self.say(Command::NewCell { cell, value })?;
        self.next.cells = cell + 1;
        Ok(cell)
    }

    /// Writes a cell once the call has returned; this call doesn't see it. Refused for want of
    /// memory alone, which the turn keeps as its fault where it is the first; nothing else changes.
    /// dioxus-core has no such call.
    pub fn write(&mut self, cell: u64, value: P::Value) -> Result<(), CxFault>
        ensures call { OnOk result
            (call_of self.new ≡ says (call_of self.old) (model.Write cell value)) }
        ensures fault { OnOk result (self.new.fault ≡ self.old.fault) }
        ensures err { IfErr result (WantedMemory self.old self.new) }
        ensures world { self.new.world ≡ self.old.world }
    {
        self.say(Command::Write { cell, value })
    }

    /// Drops a cell once the call has returned; its readers read none then. Refused for want of
    /// memory alone, which the turn keeps as its fault where it is the first; nothing else changes.
    /// dioxus-core has no such call.
    pub fn drop_cell(&mut self, cell: u64) -> Result<(), CxFault>
        ensures call { OnOk result
            (call_of self.new ≡ says (call_of self.old) (model.DropCell cell)) }
        ensures fault { OnOk result (self.new.fault ≡ self.old.fault) }
        ensures err { IfErr result (WantedMemory self.old self.new) }
        ensures world { self.new.world ≡ self.old.world }
    {
        self.say(Command::DropCell { cell })
    }
}
