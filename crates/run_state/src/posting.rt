//! Marks and wakes.
ghost use Rattle.std.specs.Prelude.{◌≡◌, ℕ, ◌<◌, ◌++◌, ◌∷◌, [], length, get_or, map, OnOk, OnErr, IsOk, true, if◌then◌else◌};
ghost use Rattle.std.specs.List.{list_any};
ghost use Rattle.std.specs.List.Sorted.{IsStrictlySortedBy};
ghost use Rattle.std.specs.Map.{keys_of};
ghost use Rattle.std.specs.BTreeMap.{is_at};
ghost use Rattle.std.specs.Ordering.{nat_cmp};
ghost use Rattle.rt_cells.specs.declared.sources.Reader.{Reader};
ghost use Rattle.rt_cells.specs.Orders.{reader_cmp};
ghost use Rattle.rt_cells.specs.Reads.{has as has_source, reads_of, readers_of};
ghost use Rattle.rt_model.specs.Lists.{has};
ghost use Rattle.rt_model.specs.State.{Mark as MarkOf, Woken as WokenOf};
ghost use Rattle.run_owed.specs.Lists.{numbers_of};
ghost use Rattle.rt_model.specs.Commands.{post, post_target, names_source, readers, tell};
ghost use Rattle.rt_model.specs.Removal.{tell_all};
ghost use Rattle.rt_model.specs.Replay.{post_all};
ghost use Rattle.run_records.specs.Records.{source_of, target_of};
ghost use Rattle.run_state.specs.Names.{posted_of};
ghost use Rattle.run_state.specs.Posts.{mark_of, posts_of, posts_of_all, posts_of_found, posts_of_target, stands_in, targets_in, told_targets, wake_of};
ghost use Rattle.run_state.specs.Readers.{AreHeard, AreKnown};
ghost use Rattle.run_state.specs.Mirror.{scopes_of, state_of};

use crate::names::Posted;
use crate::read_order::ReadOrder;
use crate::sources::names_source;
use crate::state::{State, TaskRow};
use rt_cells::{Cells, ReactiveContext, Reader, Source, Target};
use rt_values::{Boxed, OutOfMemory};
use run_owed::Owed;
use run_records::Scope;
use run_table::{BoxedTable, Table};
use tree_nodes::Parts;

impl<P: Parts> State<P> {
    /// Puts a live scope or task at the end of the posted list.
    pub fn post(&mut self, posted: Posted) -> Result<(), OutOfMemory>
        ensures ok { IsOk result }
        ensures posted { OnOk result ((g : _) →
            state_of g self.new ≡ post (state_of g self.old) (posted_of posted)) }
        ensures rows { self.new.rows ≡ self.old.rows }
        ensures err { OnErr result (self.new ≡ self.old) }
    {
        match posted {
            Posted::Mark(scope) => {
                self.post_mark(scope);
                Ok(())
            }
            Posted::Woken(task) => {
                self.post_wake(task);
                Ok(())
            }
        }
    }

    /// Posts a mark of a scope, where it is live.
    fn post_mark(&mut self, scope: u64)
        ensures posted { (g : _) → state_of g self.new ≡ post (state_of g self.old) (MarkOf scope) }
        ensures rows { self.new.rows ≡ self.old.rows }
    {
        if !self.is_live(scope) {
            return;
        }
        self.owed.post_mark(scope);
    }

    /// Posts a wake of a task, where it hasn't ended.
    fn post_wake(&mut self, task: u64)
        ensures posted { (g : _) → state_of g self.new ≡ post (state_of g self.old) (WokenOf task) }
        ensures rows { self.new.rows ≡ self.old.rows }
    {
        if !self.has_task(task) {
            return;
        }
        self.owed.post_wake(task);
    }

    /// Marks or wakes what a reactive context targets.
    pub fn post_target(&mut self, target: Target) -> Result<(), OutOfMemory>
        ensures ok { IsOk result }
        ensures posted { OnOk result ((g : _) →
            state_of g self.new ≡ post_target (state_of g self.old) (target_of target)) }
        ensures rows { self.new.rows ≡ self.old.rows }
        ensures err { OnErr result (self.new ≡ self.old) }
    {
        match target {
            Target::Scope(scope) => self.post(Posted::Mark(scope.0)),
            Target::Task(task) => self.post(Posted::Woken(task.0)),
        }
    }

    /// Marks each scope that read a source, and then posts the target of each reactive context whose
    /// sources name it. It takes no memory, and goes through no other scope or context.
    pub fn tell(&mut self, source: Source) -> Result<(), OutOfMemory>
        ensures ok { IsOk result }
        ensures told { OnOk result ((g : _) →
            state_of g self.new ≡ tell (state_of g self.old) (source_of source)) }
    {
        post_readers(
            &self.rows.table,
            &self.tasks,
            &self.cells,
            &self.read_order,
            source,
            &mut self.owed,
        );
        Ok(())
    }

    /// Posts the readers of these sources, source by source.
    pub fn tell_all(&mut self, sources: &[Source]) -> Result<(), OutOfMemory>
        ensures { OnOk result ((g : _) →
            state_of g self.new ≡ tell_all (state_of g self.old) (map source_of sources.now)) }
    {
        for source in sources {
            self.tell_one(source)?;
        }
        Ok(())
    }

    /// Posts the readers of one of several sources.
    fn tell_one(&mut self, source: &Source) -> Result<(), OutOfMemory>
        ensures { OnOk result ((g : _) →
            state_of g self.new ≡ tell (state_of g self.old) (source_of source.now)) }
    {
        self.tell(*source)
    }

    /// Posts all live scopes.
    pub fn post_all(&mut self) -> Result<(), OutOfMemory>
        ensures { OnOk result ((g : _) →
            state_of g self.new ≡ post_all (scopes_of self.old.rows.table) (state_of g self.old)) }
    {
        let count = self.rows.table.as_slice().len();
        for index in 0..count {
            self.post_at(index)?;
        }
        Ok(())
    }

    /// Posts the live scope at an index.
    fn post_at(&mut self, index: usize) -> Result<(), OutOfMemory>
        requires within { index < length self.old.rows.table }
        ensures posted { OnOk result ((g : _) (row : ℕ × Scope P P.Component P.Props P.Value P.Handler P.TaskState P.Effect P.Payload)
            → state_of g self.new ≡ post (state_of g self.old)
            (MarkOf (get_or self.old.rows.table index row).0)) }
        ensures rows { self.new.rows ≡ self.old.rows }
    {
        let scope = self.rows.table.as_slice()[index].0;
        self.post(Posted::Mark(scope))
    }
}

/// Posts the readers of a source as the cells know them: scopes by number, which is the order of the
/// table, and then the targets of reactive contexts. Only where the table's numbers didn't rise is
/// each scope looked at. The order of reading is for contracts alone.
fn post_readers<P: Parts>(
    rows: &BoxedTable<Scope<P>>,
    tasks: &Table<TaskRow<P>>,
    cells: &Cells<P::Value>,
    order: &ReadOrder,
    source: Source,
    owed: &mut Owed,
)
    requires known { AreKnown (scopes_of rows.now) cells.now.reads }
    requires heard { AreHeard cells.now.contexts order.now cells.now.reads }
    requires entered { numbers_of rows.now ≡ numbers_of owed.old.scopes }
    requires woken { numbers_of tasks.now ≡ numbers_of owed.old.tasks }
    ensures posted { owed.new ≡ record owed.old {
      posted = owed.old.posted ++ (readers (source_of source) (scopes_of rows.now)
          ++ told_targets (stands_in rows.now) (stands_in tasks.now) (source_of source) order.now
          cells.now.contexts);
    } }
{
    if !rows.rises() {
        add_readers(rows.as_slice(), source, owed);
        post_each(rows, tasks, cells, source, false, owed);
        return;
    }
    post_each(rows, tasks, cells, source, true, owed);
}

/// Posts each reader of a source as it is met, but no scope where these are posted already.
fn post_each<P: Parts>(
    rows: &BoxedTable<Scope<P>>,
    tasks: &Table<TaskRow<P>>,
    cells: &Cells<P::Value>,
    source: Source,
    rises: bool,
    owed: &mut Owed,
)
    requires entered { numbers_of rows.now ≡ numbers_of owed.old.scopes }
    requires woken { numbers_of tasks.now ≡ numbers_of owed.old.tasks }
    ensures posted { owed.new ≡ record owed.old {
      posted = owed.old.posted ++ posts_of_all rises (stands_in rows.now) (stands_in tasks.now)
          (targets_in cells.now.contexts) (readers_of source cells.now.reads);
    } }
    ensures ascending { IsStrictlySortedBy reader_cmp (readers_of source cells.now.reads) }
    ensures members { (reader : Reader) → list_any (is_at (reader_cmp reader))
        (readers_of source cells.now.reads) ≡ has_source source (reads_of reader cells.now.reads) }
    ensures contexts { IsStrictlySortedBy nat_cmp (keys_of cells.now.contexts) }
{
    let mut left = cells.readers(source);
    while let Some(reader) = left.next() {
        post_reader(rows, tasks, cells, reader, rises, owed);
    }
}

/// Posts one reader.
fn post_reader<P: Parts>(
    rows: &BoxedTable<Scope<P>>,
    tasks: &Table<TaskRow<P>>,
    cells: &Cells<P::Value>,
    reader: Reader,
    rises: bool,
    owed: &mut Owed,
)
    requires entered { numbers_of rows.now ≡ numbers_of owed.old.scopes }
    requires woken { numbers_of tasks.now ≡ numbers_of owed.old.tasks }
    ensures posted { owed.new ≡ record owed.old {
      posted = owed.old.posted ++ posts_of rises (stands_in rows.now) (stands_in tasks.now)
          (targets_in cells.now.contexts) reader;
    } }
{
    match reader {
        Reader::Scope(scope) => post_scope(rows, scope.0, rises, owed),
        Reader::Context(context) => post_context(rows, tasks, cells, context, owed),
    }
}

/// Posts the mark of a scope, where it is live and scopes aren't posted already.
fn post_scope<P: Parts>(rows: &BoxedTable<Scope<P>>, scope: u64, rises: bool, owed: &mut Owed)
    requires entered { numbers_of rows.now ≡ numbers_of owed.old.scopes }
    ensures posted { owed.new ≡ record owed.old {
      posted = owed.old.posted ++ (if rises then mark_of (stands_in rows.now) scope else []);
    } }
{
    if !rises {
        return;
    }
    mark_live(rows, scope, owed);
}

/// Posts the target of a reactive context, where it stands.
fn post_context<P: Parts>(
    rows: &BoxedTable<Scope<P>>,
    tasks: &Table<TaskRow<P>>,
    cells: &Cells<P::Value>,
    context: u64,
    owed: &mut Owed,
)
    requires entered { numbers_of rows.now ≡ numbers_of owed.old.scopes }
    requires woken { numbers_of tasks.now ≡ numbers_of owed.old.tasks }
    ensures posted { owed.new ≡ record owed.old {
      posted = owed.old.posted ++ posts_of_found (stands_in rows.now) (stands_in tasks.now)
          (targets_in cells.now.contexts context);
    } }
{
    match ReactiveContext(context).target(cells) {
        Some(target) => post_live(rows, tasks, target, owed),
        None => {}
    }
}

/// Posts a target, where it is live.
fn post_live<P: Parts>(
    rows: &BoxedTable<Scope<P>>,
    tasks: &Table<TaskRow<P>>,
    target: Target,
    owed: &mut Owed,
)
    requires entered { numbers_of rows.now ≡ numbers_of owed.old.scopes }
    requires woken { numbers_of tasks.now ≡ numbers_of owed.old.tasks }
    ensures posted { owed.new ≡ record owed.old {
      posted = owed.old.posted
          ++ posts_of_target (stands_in rows.now) (stands_in tasks.now) target;
    } }
{
    match target {
        Target::Scope(scope) => mark_live(rows, scope.0, owed),
        Target::Task(task) => wake_live(tasks, task.0, owed),
    }
}

/// Posts the mark of a scope, where it is live.
fn mark_live<P: Parts>(rows: &BoxedTable<Scope<P>>, scope: u64, owed: &mut Owed)
    requires entered { numbers_of rows.now ≡ numbers_of owed.old.scopes }
    ensures posted { owed.new ≡ record owed.old {
      posted = owed.old.posted ++ mark_of (stands_in rows.now) scope;
    } }
{
    match rows.get(scope) {
        Some(_row) => owed.post_mark(scope),
        None => {}
    }
}

/// Posts the wake of a task, where it hasn't ended.
fn wake_live<P: Parts>(tasks: &Table<TaskRow<P>>, task: u64, owed: &mut Owed)
    requires woken { numbers_of tasks.now ≡ numbers_of owed.old.tasks }
    ensures posted { owed.new ≡ record owed.old {
      posted = owed.old.posted ++ wake_of (stands_in tasks.now) task;
    } }
{
    match tasks.get(task) {
        Some(_row) => owed.post_wake(task),
        None => {}
    }
}

/// Posts the marks of the scopes that read a source. They are entered.
fn add_readers<P: Parts>(scopes: &[(u64, Boxed<Scope<P>>)], source: Source, owed: &mut Owed)
    requires entered { numbers_of scopes.now ≡ numbers_of owed.old.scopes }
    ensures posted { owed.new ≡ record owed.old {
      posted = owed.old.posted ++ readers (source_of source) (scopes_of scopes.now);
    } }
{
    for entry in scopes {
        let scope = entry.1.get();
        add_reader(entry.0, scope.rest.reads.as_slice(), source, owed);
    }
}

/// Posts the mark of an entered scope, where it read the source.
fn add_reader(scope: u64, reads: &[Source], source: Source, owed: &mut Owed)
    requires entered { has (numbers_of owed.old.scopes) scope ≡ true }
    ensures posted { owed.new ≡ record owed.old {
      posted = owed.old.posted
          ++ (if names_source (map source_of reads.now) (source_of source) then MarkOf scope ∷ [] else []);
    } }
{
    if !names_source(reads, source) {
        return;
    }
    owed.post_mark(scope);
}
