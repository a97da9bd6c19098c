//! What scopes have read: it stands in their records, and the cells know its readers.
ghost use Rattle.std.specs.Prelude.{◌≡◌, OnOk, Some, [], map};
ghost use Rattle.rt_model.specs.Lists.{without};
ghost use Rattle.rt_model.specs.State as model;
ghost use Rattle.rt_model.specs.State.{change};
ghost use Rattle.run_records.specs.Records.{source_of, newest_first};
ghost use Rattle.run_state.specs.Mirror.{forgets, state_of};

use crate::sources::newest_first;
use crate::state::State;
use rt_cells::{Reader, Source};
use rt_values::{List, OutOfMemory, Part, ScopeId};
use run_places::SideName;
use run_records::Scope;
use std::alloc::Global;
use tree_nodes::Parts;

impl<P: Parts> State<P> {
    /// A live scope's body has read these last.
    pub fn keep_reads(
        &mut self,
        alloc: Global,
        scope: u64,
        reads: List<Source>,
    ) -> Result<(), OutOfMemory>
        // The newest one first.
        ensures { OnOk result ((g : _) → state_of g self.new
            ≡ change (state_of g self.old) scope
            (λ x. record x { reads = newest_first source_of reads })) }
    {
        self.put_reads(alloc, scope, newest_first(reads))
    }

    /// The children of a boundary show, and it reads nothing.
    pub fn show_children(&mut self, alloc: Global, boundary: u64) -> Result<(), OutOfMemory>
        // Its last call is kept no more.
        ensures { OnOk result ((g : _) → state_of (forgets g boundary) self.new
            ≡ change (record (state_of g self.old) {
              last_calls = without (state_of g self.old).last_calls boundary;
            }) boundary (λ x. record x { shows = Some model.ChildrenSide; reads = [] })) }
    {
        self.show(boundary, SideName::Children)?;
        self.put_reads(alloc, boundary, List::new(alloc))
    }

    /// A live scope has read these last, the newest first. Where it had read the same, all stays.
    fn put_reads(
        &mut self,
        alloc: Global,
        scope: u64,
        reads: List<Source>,
    ) -> Result<(), OutOfMemory>
        ensures { OnOk result ((g : _) → state_of g self.new
            ≡ change (state_of g self.old) scope
            (λ x. record x { reads = map source_of reads })) }
    {
        let Some(found) = self.rows.table.get(scope) else {
            return Ok(());
        };
        if found.rest.reads.same(&reads) {
            return Ok(());
        }
        let reader = Reader::Scope(ScopeId(scope));
        self.cells.set_reads(alloc, reader, reads.as_slice())?;
        let _done = self.rows.table.change(
            scope,
            |found: &mut Scope<P>| -> Result<(), OutOfMemory>
                ensures put { found.new ≡ record found.old {
                  rest = record found.old.rest { reads = reads };
                } }
            {
                found.rest.reads = reads;
                Ok(())
            },
        );
        Ok(())
    }
}
