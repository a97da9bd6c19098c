//! Tracked cells with their readers: what a body reads, and whom a write tells.
//! A cell, a reader and a reactive context are known by number; a number is never used again.
ghost use Rattle.std.specs.Prelude.{◌≡◌, ◌↔◌, ◌⊎◌, ◌-◌, ◌^◌, ◌<◌, ◌++◌, ◌∷◌, ℕ, [], IfOk, OnOk, OnErr, cond, is_some, not, nat_eq, true};
ghost use Rattle.std.specs.Option.{option_copied};
ghost use Rattle.std.specs.List.{filter, list_any};
ghost use Rattle.std.specs.List.Sorted.{IsStrictlySortedBy};
ghost use Rattle.std.specs.Ordering.{nat_cmp};
ghost use Rattle.std.specs.BTreeMap.{is_at};
ghost use Rattle.std.specs.Map.{keys_of};
ghost use Rattle.rt_values.specs.declared.names.ScopeId.{ScopeId};
ghost use Rattle.rt_cells.specs.declared.sources.Reader.{Reader};
ghost use Rattle.rt_cells.specs.Orders.{reader_cmp, source_cmp};
ghost use Rattle.rt_cells.specs.Held.{held_at, owner_at, value_at, numbers_of};
ghost use Rattle.rt_cells.specs.Reads.{has, in_order, reads_of, readers_of, context_sources};
ghost use Rattle.rt_cells.specs.Cells.{started, cell_made, cell_entered, cell_written, cell_dropped, cells_of_dropped, reads_set, read_added, reader_dropped, context_made, context_entered, contexts_dropped};

use crate::faults::CellsFault;
use crate::numbered::Numbered;
use crate::readers::Readers;
use crate::reads::Reads;
use crate::sources::{Reader, Source, Target};
use rt_values::{List, OutOfMemory, ScopeId};
use std::alloc::Global;
use std::marker::Model;

/// Cells of values `V`, the sources of each reader, and the reactive contexts.
#[derive(Drop)]
pub struct Cells<V> {
    cells: Numbered<V>,
    reads: Reads,
    contexts: Numbered<Target>,
}

impl<V> Model for Cells<V> {
    ghost use Rattle.rt_cells.specs.Cells.{State};

    ghost Value = { State V };

    ghost view = { λ kept. record {
      cells = kept.cells.held;
      next_cell = kept.cells.next;
      reads = kept.reads;
      contexts = kept.contexts.held;
      next_context = kept.contexts.next;
    } };
}

impl<V> Cells<V> {
    /// No cell and no reactive context. The first ones will have these numbers.
    pub fn new(alloc: Global, first_cell: u64, first_context: u64) -> Cells<V>
        ensures started { result ≡ started first_cell first_context }
    {
        Cells {
            cells: Numbered::new(alloc, first_cell),
            reads: Reads::new(alloc),
            contexts: Numbered::new(alloc, first_context),
        }
    }

    /// The value of a cell, or `None` where there is no such cell.
    pub fn get(&self, cell: u64) -> Option<&V>
        ensures value { option_copied result ≡ value_at cell self.now.cells }
    {
        self.cells.get(cell)
    }

    /// The scope's cells, ascending.
    pub fn owned(&self, alloc: Global, owner: ScopeId) -> Result<List<u64>, OutOfMemory>
        ensures owned { IfOk result (λ cells. cells ≡ numbers_of owner self.now.cells) }
        ensures ascending { IfOk result (IsStrictlySortedBy nat_cmp) }
    {
        self.cells.numbers_of(alloc, owner)
    }

    /// Gives the reader just these sources, each once, in place of those that it had.
    pub fn set_reads(
        &mut self,
        alloc: Global,
        reader: Reader,
        sources: &[Source],
    ) -> Result<(), OutOfMemory>
        ensures ok { OnOk result (self.new ≡ reads_set reader sources.now self.old) }
        ensures set { OnOk result
            (reads_of reader self.new.reads ≡ in_order source_cmp sources.now) }
        ensures each { OnOk result ((other : Reader) → reads_of other self.new.reads
            ≡ cond (is_at (reader_cmp reader) other) (in_order source_cmp sources.now)
            (reads_of other self.old.reads)) }
        ensures err { OnErr result (self.new ≡ self.old) }
    {
        self.reads.set(alloc, reader, sources)
    }

    /// Gives the reader one more source. One that it has already changes nothing.
    pub fn add_read(
        &mut self,
        alloc: Global,
        reader: Reader,
        source: Source,
    ) -> Result<(), OutOfMemory>
        ensures ok { OnOk result (self.new ≡ read_added reader source self.old) }
        ensures added { OnOk result (reads_of reader self.new.reads
            ≡ in_order source_cmp (reads_of reader self.old.reads ++ source ∷ [])) }
        ensures each { OnOk result ((other : Reader) → reads_of other self.new.reads
            ≡ cond (is_at (reader_cmp reader) other)
            (in_order source_cmp (reads_of reader self.old.reads ++ source ∷ []))
            (reads_of other self.old.reads)) }
        ensures err { OnErr result (self.new ≡ self.old) }
    {
        self.reads.add(alloc, reader, source)
    }

    /// What the reader reads, ascending and distinct.
    pub fn reads_of(&self, reader: Reader) -> &[Source]
        ensures sources { result.now ≡ reads_of reader self.now.reads }
        ensures ascending { IsStrictlySortedBy source_cmp result.now }
    {
        self.reads.of(reader)
    }

    /// Who reads the source, ascending.
    pub fn readers_of(&self, alloc: Global, source: Source) -> Result<List<Reader>, OutOfMemory>
        ensures readers { IfOk result (λ readers. readers ≡ readers_of source self.now.reads) }
        ensures ascending { IfOk result (IsStrictlySortedBy reader_cmp) }
    {
        self.reads.readers_of(alloc, source)
    }

    /// Who reads the source, ascending, to be met one by one from one search on. It takes no memory.
    pub fn readers(&self, source: Source) -> Readers<'_>
        ensures readers { result ≡ readers_of source self.now.reads }
        ensures ascending { IsStrictlySortedBy reader_cmp result }
        ensures members { (reader : Reader) → list_any (is_at (reader_cmp reader)) result
            ≡ has source (reads_of reader self.now.reads) }
        ensures contexts { IsStrictlySortedBy nat_cmp (keys_of self.now.contexts) }
    {
        self.contexts.ascends();
        self.reads.readers(source)
    }

    /// The contexts of the scope that some reader has looked up, of whatever kind, ascending.
    pub fn context_sources(
        &self,
        alloc: Global,
        scope: ScopeId,
    ) -> Result<List<Source>, OutOfMemory>
        ensures sources { IfOk result (λ sources. sources ≡ context_sources scope self.now.reads) }
        ensures ascending { IfOk result (IsStrictlySortedBy source_cmp) }
        ensures read { IfOk result (λ sources. (reader : Reader) (kind : ℕ)
            → has (Source.Context kind scope) (reads_of reader self.now.reads) ≡ true
            → has (Source.Context kind scope) sources ≡ true) }
        ensures only { IfOk result (λ sources. (kind : ℕ)
            → has (Source.Context kind scope) sources ≡ true → (reader : Reader)
            × (has (Source.Context kind scope) (reads_of reader self.now.reads) ≡ true)) }
    {
        self.reads.contexts_of(alloc, scope)
    }

    /// Leaves the reader without sources.
    pub fn drop_reader(&mut self, reader: Reader)
        ensures dropped { self.new ≡ reader_dropped reader self.old }
        ensures none { reads_of reader self.new.reads ≡ [] }
        ensures each { (other : Reader) → reads_of other self.new.reads
            ≡ cond (is_at (reader_cmp reader) other) [] (reads_of other self.old.reads) }
    {
        self.reads.drop_reader(reader);
    }

    /// Enters a reactive context of the scope, without sources, under a number that was drawn elsewhere.
    /// A number below the next one is refused as one that is used up.
    pub fn enter_context(
        &mut self,
        owner: ScopeId,
        number: u64,
        target: Target,
    ) -> Result<(), CellsFault>
        ensures ok { OnOk result (self.new ≡ context_entered owner number target self.old) }
        ensures each { OnOk result ((other : Reader) → reads_of other self.new.reads
            ≡ cond (is_at (reader_cmp (Reader.Context number)) other) []
            (reads_of other self.old.reads)) }
        ensures ascending { OnOk result (IsStrictlySortedBy nat_cmp (keys_of self.new.contexts)) }
        ensures used { (result ≡ Err CellsFault.IdsExhausted)
            ↔ ((number < self.old.next_context) ⊎ (number ≡ 2 ^ 64 - 1)) }
        ensures err { OnErr result (self.new ≡ self.old) }
    {
        self.contexts.enter(owner, number, target)?;
        self.contexts.ascends();
        self.reads.drop_reader(Reader::Context(number));
        Ok(())
    }

    /// Removes the reactive contexts that were made for the scope, with their sources.
    pub fn drop_contexts(&mut self, owner: ScopeId)
        ensures dropped { self.new ≡ contexts_dropped owner self.old }
        ensures scopes { (scope : ScopeId) → reads_of (Reader.Scope scope) self.new.reads
            ≡ reads_of (Reader.Scope scope) self.old.reads }
        ensures each { (number : ℕ) → reads_of (Reader.Context number) self.new.reads
            ≡ cond (list_any (nat_eq number) (numbers_of owner self.old.contexts)) []
            (reads_of (Reader.Context number) self.old.reads) }
        ensures left { (number : ℕ) → held_at number self.new.contexts
            ≡ cond (list_any (nat_eq number) (numbers_of owner self.old.contexts)) None
            (held_at number self.old.contexts) }
    {
        while let Some(number) = self.contexts.first_of(owner) {
            let _target = self.contexts.remove(number);
            self.reads.drop_reader(Reader::Context(number));
        }
    }
}

// What reactive contexts are made of.
impl<V> Cells<V> {
    /// Makes a reactive context without sources, and answers its number.
    pub(crate) fn new_context(&mut self, scope: ScopeId, target: Target) -> Result<u64, CellsFault>
        ensures drawn { IfOk result (λ number. number ≡ self.old.next_context) }
        ensures ok { OnOk result (self.new ≡ context_made scope target self.old) }
        ensures kept { OnOk result (held_at self.old.next_context self.new.contexts
            ≡ Some (record { owner = scope; value = target })) }
        ensures silent { OnOk result
            (reads_of (Reader.Context self.old.next_context) self.new.reads ≡ []) }
        ensures at_end { (result ≡ Err CellsFault.IdsExhausted)
            ↔ (self.old.next_context ≡ 2 ^ 64 - 1) }
        ensures err { OnErr result (self.new ≡ self.old) }
    {
        let number = self.contexts.insert(scope, target)?;
        self.reads.drop_reader(Reader::Context(number));
        Ok(number)
    }

    /// The scope that a live reactive context was made for.
    pub(crate) fn context_scope(&self, number: u64) -> Option<ScopeId>
        ensures scope { result ≡ owner_at number self.now.contexts }
    {
        self.contexts.owner(number)
    }

    /// Whom a live reactive context tells.
    pub(crate) fn context_target(&self, number: u64) -> Option<Target>
        ensures target { result ≡ value_at number self.now.contexts }
        ensures ascending { IsStrictlySortedBy nat_cmp (keys_of self.now.contexts) }
    {
        self.contexts.ascends();
        self.contexts.get(number).copied()
    }
}

impl<V: Drop> Cells<V> {
    /// Makes a cell of the scope, and answers its number.
    pub fn new_cell(&mut self, owner: ScopeId, value: V) -> Result<u64, CellsFault>
        ensures drawn { IfOk result (λ cell. cell ≡ self.old.next_cell) }
        ensures ok { OnOk result (self.new ≡ cell_made owner value self.old) }
        ensures fresh { held_at self.old.next_cell self.old.cells ≡ None }
        ensures kept { OnOk result (held_at self.old.next_cell self.new.cells
            ≡ Some (record { owner = owner; value = value })) }
        ensures at_end { (result ≡ Err CellsFault.IdsExhausted)
            ↔ (self.old.next_cell ≡ 2 ^ 64 - 1) }
        ensures err { OnErr result (self.new ≡ self.old) }
    {
        self.cells.insert(owner, value)
    }

    /// Enters a cell of the scope under a number that was drawn elsewhere. A number below the next
    /// one is refused as one that is used up.
    pub fn enter_cell(&mut self, owner: ScopeId, cell: u64, value: V) -> Result<(), CellsFault>
        ensures ok { OnOk result (self.new ≡ cell_entered owner cell value self.old) }
        ensures used { (result ≡ Err CellsFault.IdsExhausted)
            ↔ ((cell < self.old.next_cell) ⊎ (cell ≡ 2 ^ 64 - 1)) }
        ensures err { OnErr result (self.new ≡ self.old) }
    {
        self.cells.enter(owner, cell, value)
    }

    /// Replaces the value of a cell. False where there is no such cell; the value is dropped then.
    pub fn write(&mut self, cell: u64, value: V) -> bool
        ensures live { result ≡ is_some (held_at cell self.old.cells) }
        ensures written { self.new ≡ cell_written cell value self.old }
    {
        self.cells.write(cell, value)
    }

    /// Removes a cell and gives its value. Who reads it goes on reading it.
    pub fn drop_cell(&mut self, cell: u64) -> Option<V>
        ensures value { result ≡ value_at cell self.old.cells }
        ensures dropped { self.new ≡ cell_dropped cell self.old }
        ensures gone { self.new.cells ≡ filter (λ kept. not (nat_eq kept.0 cell)) self.old.cells }
    {
        self.cells.remove(cell)
    }

    /// Removes the cells of the scope. Who reads them goes on reading them.
    pub fn drop_cells(&mut self, owner: ScopeId)
        ensures dropped { self.new ≡ cells_of_dropped owner self.old }
    {
        self.cells.remove_owned(owner);
    }
}
