//! Cells: made, written and dropped, with their readers told.
ghost use Rattle.std.specs.Prelude.{◌≡◌, OnOk};
ghost use Rattle.rt_model.specs.World as model;
ghost use Rattle.rt_model.specs.Commands.{command, write_cell, drop_cell_row};
ghost use Rattle.run_records.specs.Records.{source_of, target_of};
ghost use Rattle.run_state.specs.Mirror.{state_of};

use crate::state::State;
use rt_cells::{ReactiveContext, Reader, Source, Target};
use rt_values::{OutOfMemory, ScopeId};
use std::alloc::Global;
use tree_nodes::Parts;

impl<P: Parts> State<P> {
    /// Makes a cell of a live scope under the number that a call drew. A number that was used up before
    /// is refused as memory is; no call draws one.
    pub fn new_cell(&mut self, scope: u64, cell: u64, value: P::Value) -> Result<(), OutOfMemory>
        ensures { OnOk result ((g : _) (app : _) (polled : _) → state_of g self.new
            ≡ command app (state_of g self.old) scope polled (model.NewCell cell value)) }
    {
        if !self.is_live(scope) {
            return Ok(());
        }
        match self.cells.enter_cell(ScopeId(scope), cell, value) {
            Ok(()) => Ok(()),
            Err(_fault) => Err(OutOfMemory),
        }
    }

    /// Writes a cell and marks its readers, where it stands.
    pub fn write_cell(&mut self, cell: u64, value: P::Value) -> Result<(), OutOfMemory>
        ensures { OnOk result ((g : _) →
            state_of g self.new ≡ write_cell (state_of g self.old) cell value) }
    {
        if self.cells.write(cell, value) {
            self.tell(Source::Cell(cell))
        } else {
            Ok(())
        }
    }

    /// Drops a cell and marks its readers, where it stands.
    pub fn drop_cell(&mut self, cell: u64) -> Result<(), OutOfMemory>
        ensures { OnOk result ((g : _) →
            state_of g self.new ≡ drop_cell_row (state_of g self.old) cell) }
    {
        match self.cells.drop_cell(cell) {
            Some(_value) => self.tell(Source::Cell(cell)),
            None => Ok(()),
        }
    }

    /// Makes a reactive context of a live scope, without sources, under the number that a call drew. A
    /// number that was used up before is refused as memory is; no call draws one.
    pub fn new_context(
        &mut self,
        scope: u64,
        context: u64,
        target: Target,
    ) -> Result<(), OutOfMemory>
        ensures { OnOk result ((g : _) (app : _) (polled : _) → state_of g self.new
            ≡ command app (state_of g self.old) scope polled
            (model.NewContext context (target_of target))) }
    {
        if !self.is_live(scope) {
            return Ok(());
        }
        match self.cells.enter_context(ScopeId(scope), context, target) {
            Ok(()) => {
                self.read_order.begin(context);
                Ok(())
            }
            Err(_fault) => Err(OutOfMemory),
        }
    }

    /// Leaves a reactive context without sources, where it stands. It takes no memory.
    pub fn reset_context(&mut self, context: u64) -> Result<(), OutOfMemory>
        ensures { OnOk result ((g : _) (app : _) (scope : _) (polled : _) → state_of g self.new
            ≡ command app (state_of g self.old) scope polled (model.Reset context)) }
    {
        let Some(_target) = ReactiveContext(context).target(&self.cells) else {
            return Ok(());
        };
        self.cells.drop_reader(Reader::Context(context));
        self.read_order.begin(context);
        Ok(())
    }

    /// Gives a reactive context one more source, where it stands.
    pub fn read_into(
        &mut self,
        alloc: Global,
        context: u64,
        source: Source,
    ) -> Result<(), OutOfMemory>
        ensures { OnOk result ((g : _) (app : _) (scope : _) (polled : _) → state_of g self.new
            ≡ command app (state_of g self.old) scope polled
            (model.ReadInto context (source_of source))) }
    {
        let Some(_target) = ReactiveContext(context).target(&self.cells) else {
            return Ok(());
        };
        self.cells
            .add_read(alloc, Reader::Context(context), source)?;
        self.read_order.read(context, source);
        Ok(())
    }
}
