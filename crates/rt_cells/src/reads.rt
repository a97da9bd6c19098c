//! Each reader with its sources, and from each source back to its readers.
ghost use Rattle.std.specs.Prelude.{◌≡◌, ℕ, ◌++◌, ◌∷◌, [], List, IfOk, IsTrue, OnOk, OnErr, cond, true};
ghost use Rattle.std.specs.List.{list_any};
ghost use Rattle.std.specs.List.Sorted.{IsStrictlySortedBy};
ghost use Rattle.std.specs.BTreeMap.{insert_entry, is_at};
ghost use Rattle.std.specs.Map.{keys_of};
ghost use Rattle.rt_cells.specs.declared.sources.Reader.{Reader};
ghost use Rattle.rt_cells.specs.Orders.{source_cmp, reader_cmp};
ghost use Rattle.rt_cells.specs.Reads.{has, in_order, reads_of, readers_of, with_reads, without_reader, context_sources};

use crate::links::{contexts_at, enter, is_among, leave, readers_at};
use crate::places::{Place, place_of};
use crate::readers::{Readers, readers_from};
use crate::sources::{Reader, Source};
use rt_values::{List, OutOfMemory, ScopeId, same_slice};
use std::alloc::Global;
use std::collections::{BTreeMap, BTreeSet};
use std::marker::Model;

/// Who reads what. A clause sees the readers that have sources, ascending, each with its sources.
#[derive(Drop)]
pub struct Reads {
    sources: BTreeMap<Reader, List<Source>>,
    links: BTreeSet<(Place, Reader)>,
}

impl Model for Reads {
    ghost use Rattle.std.specs.Prelude.{List};
    ghost use Rattle.rt_cells.specs.declared.sources.Source.{Source};
    ghost use Rattle.rt_cells.specs.declared.sources.Reader.{Reader};
    ghost use Rattle.rt_cells.specs.Links.{IsLinked};

    ghost Value = { List (Reader × List Source) };

    ghost view = { λ reads. reads.sources.entries };

    ghost invariant = { λ reads. IsLinked reads.sources.entries reads.links.keys };
}

/// The distinct sources, ascending.
pub fn in_order(alloc: Global, sources: &[Source]) -> Result<List<Source>, OutOfMemory>
    ensures sources { IfOk result (λ ordered. ordered ≡ in_order source_cmp sources.now) }
    ensures ascending { IfOk result (IsStrictlySortedBy source_cmp) }
{
    let mut ordered = Vec::from_slice(alloc, sources)?;
    ordered.sort_unstable();
    ordered.dedup();
    Ok(List::from_vec(ordered))
}

/// The sources that are kept of the reader.
fn kept_of(sources: &BTreeMap<Reader, List<Source>>, reader: Reader) -> &[Source]
    ensures kept { result.now ≡ reads_of reader sources.now.entries }
{
    match sources.get(&reader) {
        Some(kept) => kept.as_slice(),
        None => &[],
    }
}

impl Reads {
    /// Nobody reads anything.
    pub fn new(alloc: Global) -> Reads
        ensures empty { result ≡ [] }
    {
        Reads {
            sources: BTreeMap::new(alloc),
            links: BTreeSet::new(alloc),
        }
    }

    /// A reader's sources, ascending and distinct.
    pub fn of(&self, reader: Reader) -> &[Source]
        ensures sources { result.now ≡ reads_of reader self.now }
        ensures ascending { IsStrictlySortedBy source_cmp result.now }
        ensures readers { IsStrictlySortedBy reader_cmp (keys_of self.now) }
    {
        kept_of(&self.sources, reader)
    }

    /// The reader has no sources.
    pub fn drop_reader(&mut self, reader: Reader)
        ensures dropped { self.new ≡ without_reader reader self.old }
        ensures none { reads_of reader self.new ≡ [] }
        ensures each { (other : Reader) → reads_of other self.new
            ≡ cond (is_at (reader_cmp reader) other) [] (reads_of other self.old) }
    {
        if let Some(former) = self.sources.remove(&reader) {
            leave(&mut self.links, reader, former.as_slice(), &[]);
        }
    }

    /// The reader has just these sources, of which there is at least one.
    fn put(&mut self, reader: Reader, sources: List<Source>) -> Result<(), OutOfMemory>
        requires ascending { IsStrictlySortedBy source_cmp sources }
        ensures ok { OnOk result (self.new ≡ insert_entry reader_cmp self.old reader sources) }
        ensures put { OnOk result (reads_of reader self.new ≡ sources) }
        ensures each { OnOk result ((other : Reader) → reads_of other self.new
            ≡ cond (is_at (reader_cmp reader) other) sources (reads_of other self.old)) }
        ensures err { OnErr result (self.new ≡ self.old) }
    {
        if let Err(refused) = enter(&mut self.links, reader, sources.as_slice()) {
            leave(
                &mut self.links,
                reader,
                sources.as_slice(),
                kept_of(&self.sources, reader),
            );
            return Err(refused);
        }
        match self.sources.insert(reader, sources) {
            Ok(former) => {
                match former {
                    Some(former) => leave(
                        &mut self.links,
                        reader,
                        former.as_slice(),
                        kept_of(&self.sources, reader),
                    ),
                    None => {}
                }
                Ok(())
            }
            Err(refused) => {
                let (_, sources) = refused.value;
                leave(&mut self.links, reader, sources.as_slice(), &[]);
                Err(OutOfMemory)
            }
        }
    }

    /// Whether the reader has just these sources, of which there is one, in this order: then it changes
    /// nothing to set them.
    fn has_just(&self, reader: Reader, sources: &[Source]) -> bool
        ensures same { IsTrue result
            → self.now ≡ with_reads reader (in_order source_cmp sources.now) self.now }
        ensures kept { IsTrue result
            → reads_of reader self.now ≡ in_order source_cmp sources.now }
    {
        if sources.is_empty() {
            return false;
        }
        same_slice(self.of(reader), sources)
    }

    /// The reader has just the sources that are named, however often each is. Where it had just these,
    /// no link is looked for; and where they are named in order, nothing is sorted and no memory taken.
    pub fn set(
        &mut self,
        alloc: Global,
        reader: Reader,
        sources: &[Source],
    ) -> Result<(), OutOfMemory>
        ensures ok { OnOk result
            (self.new ≡ with_reads reader (in_order source_cmp sources.now) self.old) }
        ensures set { OnOk result (reads_of reader self.new ≡ in_order source_cmp sources.now) }
        ensures each { OnOk result ((other : Reader) → reads_of other self.new
            ≡ cond (is_at (reader_cmp reader) other) (in_order source_cmp sources.now)
            (reads_of other self.old)) }
        ensures err { OnErr result (self.new ≡ self.old) }
    {
        if self.has_just(reader, sources) {
            return Ok(());
        }
        let sources = in_order(alloc, sources)?;
        if sources.is_empty() {
            self.drop_reader(reader);
            return Ok(());
        }
        if same_slice(self.of(reader), sources.as_slice()) {
            return Ok(());
        }
        self.put(reader, sources)
    }

    /// The readers of a source, ascending.
    pub fn readers_of(&self, alloc: Global, source: Source) -> Result<List<Reader>, OutOfMemory>
        ensures readers { IfOk result (λ readers. readers ≡ readers_of source self.now) }
        ensures ascending { IfOk result (IsStrictlySortedBy reader_cmp) }
    {
        let readers = readers_at(alloc, &self.links, place_of(source))?;
        Ok(List::from_vec(readers))
    }

    /// The readers of a source, ascending, to be met one by one.
    pub fn readers(&self, source: Source) -> Readers<'_>
        ensures readers { result ≡ readers_of source self.now }
        ensures ascending { IsStrictlySortedBy reader_cmp result }
        ensures members { (reader : Reader) → list_any (is_at (reader_cmp reader)) result
            ≡ has source (reads_of reader self.now) }
    {
        readers_from(&self.links, place_of(source))
    }

    /// The reader has one more source, or as many as before where it has that one. Then it takes no
    /// memory.
    pub fn add(&mut self, alloc: Global, reader: Reader, source: Source) -> Result<(), OutOfMemory>
        ensures ok { OnOk result (self.new ≡ with_reads reader
            (in_order source_cmp (reads_of reader self.old ++ source ∷ [])) self.old) }
        ensures added { OnOk result (reads_of reader self.new
            ≡ in_order source_cmp (reads_of reader self.old ++ source ∷ [])) }
        ensures each { OnOk result ((other : Reader) → reads_of other self.new
            ≡ cond (is_at (reader_cmp reader) other)
            (in_order source_cmp (reads_of reader self.old ++ source ∷ []))
            (reads_of other self.old)) }
        ensures err { OnErr result (self.new ≡ self.old) }
    {
        if is_among(self.of(reader), source) {
            return Ok(());
        }
        let mut sources = Vec::from_slice(alloc, self.of(reader))?;
        sources.push(source)?;
        self.set(alloc, reader, sources.as_slice())
    }

    /// What the scope provides, of each kind that some reader has, ascending by kind.
    pub fn contexts_of(&self, alloc: Global, scope: ScopeId) -> Result<List<Source>, OutOfMemory>
        ensures sources { IfOk result (λ sources. sources ≡ context_sources scope self.now) }
        ensures ascending { IfOk result (IsStrictlySortedBy source_cmp) }
        ensures read { IfOk result (λ sources. (reader : Reader) (kind : ℕ)
            → has (Source.Context kind scope) (reads_of reader self.now) ≡ true
            → has (Source.Context kind scope) sources ≡ true) }
        ensures only { IfOk result (λ sources. (kind : ℕ)
            → has (Source.Context kind scope) sources ≡ true → (reader : Reader)
            × (has (Source.Context kind scope) (reads_of reader self.now) ≡ true)) }
    {
        let sources = contexts_at(alloc, &self.links, scope)?;
        in_order(alloc, sources.as_slice())
    }
}
