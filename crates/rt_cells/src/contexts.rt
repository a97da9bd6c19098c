//! Reactive contexts: each is made for a scope, subscribes to sources, and tells its target when
//! one of these changes.
//! A context that was removed with its scope stays a name that does nothing.
ghost use Rattle.std.specs.Prelude.{◌≡◌, ◌↔◌, ◌-◌, ◌^◌, [], IfOk, OnOk, OnErr};
ghost use Rattle.std.specs.List.Sorted.{IsStrictlySortedBy};
ghost use Rattle.std.specs.Map.{keys_of};
ghost use Rattle.std.specs.Ordering.{nat_cmp};
ghost use Rattle.rt_cells.specs.declared.sources.Reader.TheVariants as reader;
ghost use Rattle.rt_cells.specs.Held.{held_at, owner_at, value_at};
ghost use Rattle.rt_cells.specs.Reads.{reads_of};
ghost use Rattle.rt_cells.specs.Cells.{context_made, where_live, read_added, reader_dropped};

use crate::cells::Cells;
use crate::faults::CellsFault;
use crate::sources::{Reader, Source, Target};
use rt_values::{OutOfMemory, Part, ScopeId};
use std::alloc::Global;

/// One reactive context, which is told when a source that it subscribed to changes.
#[derive(Clone, Copy, Debug, PartialEq, Eq, PartialOrd, Ord, Hash)]
pub struct ReactiveContext(pub u64);

impl Part for ReactiveContext {
    fn same(&self, other: &ReactiveContext) -> bool {
        *self == *other
    }

    fn copy(&self, _alloc: Global) -> Result<ReactiveContext, OutOfMemory> {
        Ok(*self)
    }
}

impl ReactiveContext {
    /// Makes a live context of the scope, which tells `target` and has no sources.
    pub fn new_with_callback<V>(
        cells: &mut Cells<V>,
        scope: ScopeId,
        target: Target,
    ) -> Result<ReactiveContext, CellsFault>
        ensures drawn { IfOk result (λ context. context.0 ≡ cells.old.next_context) }
        ensures ok { OnOk result (cells.new ≡ context_made scope target cells.old) }
        ensures kept { OnOk result (held_at cells.old.next_context cells.new.contexts
            ≡ Some (record { owner = scope; value = target })) }
        ensures silent { OnOk result
            (reads_of (reader.Context cells.old.next_context) cells.new.reads ≡ []) }
        ensures at_end { (result ≡ Err CellsFault.IdsExhausted)
            ↔ (cells.old.next_context ≡ 2 ^ 64 - 1) }
        ensures err { OnErr result (cells.new ≡ cells.old) }
    {
        let number = cells.new_context(scope, target)?;
        Ok(ReactiveContext(number))
    }

    /// Makes a live context of the scope, which tells the scope itself and has no sources.
    pub fn new<V>(cells: &mut Cells<V>, scope: ScopeId) -> Result<ReactiveContext, CellsFault>
        ensures drawn { IfOk result (λ context. context.0 ≡ cells.old.next_context) }
        ensures ok { OnOk result (cells.new ≡ context_made scope (Target.Scope scope) cells.old) }
        ensures kept { OnOk result (held_at cells.old.next_context cells.new.contexts
            ≡ Some (record { owner = scope; value = Target.Scope scope })) }
        ensures silent { OnOk result
            (reads_of (reader.Context cells.old.next_context) cells.new.reads ≡ []) }
        ensures at_end { (result ≡ Err CellsFault.IdsExhausted)
            ↔ (cells.old.next_context ≡ 2 ^ 64 - 1) }
        ensures err { OnErr result (cells.new ≡ cells.old) }
    {
        ReactiveContext::new_with_callback(cells, scope, Target::Scope(scope))
    }

    /// Leaves a live context without sources.
    pub fn clear_subscribers<V>(&self, cells: &mut Cells<V>)
        ensures cleared { cells.new
            ≡ where_live self.now.0 (reader_dropped (reader.Context self.now.0)) cells.old }
    {
        if cells.context_scope(self.0).is_some() {
            cells.drop_reader(Reader::Context(self.0));
        }
    }

    /// Gives a live context one more source. Of a removed context nothing changes, and that is Ok.
    pub fn subscribe<V>(
        &self,
        alloc: Global,
        cells: &mut Cells<V>,
        source: Source,
    ) -> Result<(), OutOfMemory>
        ensures ok { OnOk result (cells.new
            ≡ where_live self.now.0 (read_added (reader.Context self.now.0) source) cells.old) }
        ensures err { OnErr result (cells.new ≡ cells.old) }
    {
        if cells.context_scope(self.0).is_none() {
            return Ok(());
        }
        cells.add_read(alloc, Reader::Context(self.0), source)
    }

    /// The scope that the context was made for, or `None` of a removed context.
    pub fn origin_scope<V>(&self, cells: &Cells<V>) -> Option<ScopeId>
        ensures scope { result ≡ owner_at self.now.0 cells.now.contexts }
    {
        cells.context_scope(self.0)
    }

    /// Whom the context tells, or `None` of a removed context.
    pub fn target<V>(&self, cells: &Cells<V>) -> Option<Target>
        ensures target { result ≡ value_at self.now.0 cells.now.contexts }
        ensures ascending { IsStrictlySortedBy nat_cmp (keys_of cells.now.contexts) }
    {
        cells.context_target(self.0)
    }
}
