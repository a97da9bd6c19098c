//! The edits of the build and of the units, written where these end.
ghost use Rattle.std.specs.Prelude.{◌≡◌, ℕ, None, IfOk, IfErr, OnOk};
ghost use Rattle.rt_model.specs.Replay as replay;
ghost use Rattle.rt_model.specs.Replay.{mounted_state};
ghost use Rattle.run_reports.specs.Seen.{entry_of};
ghost use Rattle.run_reports.specs.declared.limits.Limits.{Limits};
ghost use Rattle.run_state.specs.Mirror.{state_of};
ghost use Rattle.run_work.specs.Items.{item_of};
ghost use Rattle.run_outside.specs.Ends.{Took, Ends, Explains, fault_in};
ghost use Rattle.run_machine.specs.Writings.{AreCausedNow, AreEdits, AreEditsUntil, AreUntil, Closes, ClosesPart, Cuts, CutsShort, WrotePartUntil, WroteUntil};

use crate::machine::Machine;
use author_calls::App;
use rt_edits::{Edit, WriteMutations};
use rt_values::{List, OutOfMemory, ScopeId};
use run_outside::{Ended, write_edits};
use run_reports::Entry;
use run_shown::{Look, built, written, written_until};
use run_work::Item;

impl<A: App> Machine<A> {
    /// Ends the build or a unit: every scope that shows is mounted, and what changed is written. The
    /// answer is how many edits that took.
    pub(crate) fn close<M: WriteMutations>(
        &mut self,
        first: Entry,
        sink: &mut M,
    ) -> Result<u64, Ended>
        ensures ok { IfOk result (λ taken. Took (M.taken sink.old) (M.taken sink.new)
            (M.faults sink.old) (M.faults sink.new) taken) }
        ensures err { IfErr result (λ ended. (limits : Limits) → Ends limits 0
            (M.taken sink.old) (M.taken sink.new) (M.faults sink.old) (M.faults sink.new) ended) }
        ensures cause { IfErr result (λ ended. fault_in ended ≡ None) }
        ensures closes { IfOk result (λ count. Closes (entry_of first)
            self.old (M.taken sink.old) (M.taken sink.new) count) }
        ensures part { IfErr result (λ ended. ClosesPart
            (entry_of first) self.old (M.taken sink.old) (M.taken sink.new) ended) }
        ensures mounted { OnOk result ((g : _) → state_of g self.new.scopes.state
            ≡ mounted_state (state_of g self.old.scopes.state)) }
        ensures over { OnOk result (self.new.first ≡ None) }
        ensures others { self.new ≡ record self.old {
          scopes = self.new.scopes;
          first = self.new.first;
        } }
    {
        let edits = self.ended_unit(first)?;
        write_edits(self.scopes.alloc, edits.as_slice(), sink)
    }

    /// Mounts what shows, and ends the build or the unit. The answer is what it writes.
    fn ended_unit(&mut self, first: Entry) -> Result<List<Edit>, OutOfMemory>
        ensures edits { IfOk result (λ edits. AreEdits (entry_of first)
            self.old edits) }
        ensures mounted { OnOk result ((g : _) → state_of g self.new.scopes.state
            ≡ mounted_state (state_of g self.old.scopes.state)) }
        ensures over { OnOk result (self.new.first ≡ None) }
        ensures others { self.new ≡ record self.old {
          scopes = self.new.scopes;
          first = self.new.first;
        } }
    {
        self.scopes.state.mount_shown()?;
        let edits = self.caused(first)?;
        self.first = None;
        Ok(edits)
    }

    /// What the build or a unit writes, by the entry that began it.
    fn caused(&self, first: Entry) -> Result<List<Edit>, OutOfMemory>
        ensures { IfOk result (λ edits. AreCausedNow (entry_of first)
            self.now edits) }
    {
        let alloc = self.scopes.alloc;
        match first {
            Entry::Build => self.built(),
            Entry::Rerun(ScopeId(scope)) => self.rewritten(scope),
            _ => Ok(List::new(alloc)),
        }
    }

    /// What the build writes.
    fn built(&self) -> Result<List<Edit>, OutOfMemory>
        ensures { IfOk result (λ edits. AreCausedNow replay.Build
            self.now edits) }
    {
        built(self.scopes.alloc, &Look::now(&self.scopes.state.rows))
    }

    /// What a rerun of a scope writes.
    fn rewritten(&self, scope: u64) -> Result<List<Edit>, OutOfMemory>
        ensures { IfOk result (λ edits. AreCausedNow
            (replay.Rerun scope) self.now edits) }
    {
        written(
            self.scopes.alloc,
            &self.scopes.state.rows,
            &self.stood,
            self.lived,
            scope,
        )
    }

    /// What a unit wrote before an item of it was refused.
    fn caused_until(&self, refused: &Item<A>) -> Result<List<Edit>, OutOfMemory>
        ensures { IfOk result (λ edits. AreEditsUntil
            (item_of refused.now) self.now edits) }
    {
        match self.first {
            Some(first) => self.caused_by(first, refused),
            None => Ok(List::new(self.scopes.alloc)),
        }
    }

    /// The same, by the entry that began the unit.
    fn caused_by(&self, first: Entry, refused: &Item<A>) -> Result<List<Edit>, OutOfMemory>
        ensures { IfOk result (λ edits. AreUntil
            (item_of refused.now) (entry_of first) self.now edits) }
    {
        match first {
            Entry::Rerun(ScopeId(scope)) => self.rewritten_until(refused, scope),
            _ => Ok(List::new(self.scopes.alloc)),
        }
    }

    /// What a rerun of a scope wrote before an item of it was refused.
    fn rewritten_until(&self, refused: &Item<A>, scope: u64) -> Result<List<Edit>, OutOfMemory>
        ensures { IfOk result (λ edits. AreUntil
            (item_of refused.now) (replay.Rerun scope) self.now edits) }
    {
        let rows = &self.scopes.state.rows;
        let before = Look::before(rows, &self.stood, self.lived);
        written_until(self.scopes.alloc, &before, &Look::now(rows), refused, scope)
    }

    /// Ends a run in which an item was refused. What it changed before is written, unless memory is
    /// wanting. The answer is why it ends.
    pub(crate) fn cut<M: WriteMutations>(
        &self,
        ended: Ended,
        refused: &Item<A>,
        sink: &mut M,
    ) -> Ended
        ensures ends { (limits : Limits) → ((before after : ℕ) → Explains limits before after ended) →
            Ends limits 0 (M.taken sink.old) (M.taken sink.new)
            (M.faults sink.old) (M.faults sink.new) result }
        ensures cuts { Cuts (item_of refused.now) self.now
            (M.taken sink.old) (M.taken sink.new) ended result }
        ensures part { CutsShort (item_of refused.now) self.now
            (M.taken sink.old) (M.taken sink.new) ended result }
    {
        if ended.wants_memory() {
            return ended;
        }
        match self.write_until(refused, sink) {
            Ok(_edits) => ended,
            Err(failed) => failed,
        }
    }

    /// Writes what a unit changed before an item of it was refused. The answer is how many edits.
    fn write_until<M: WriteMutations>(&self, refused: &Item<A>, sink: &mut M) -> Result<u64, Ended>
        ensures ok { IfOk result (λ taken. Took (M.taken sink.old) (M.taken sink.new)
            (M.faults sink.old) (M.faults sink.new) taken) }
        ensures err { IfErr result (λ ended. (limits : Limits) → Ends limits 0
            (M.taken sink.old) (M.taken sink.new) (M.faults sink.old) (M.faults sink.new) ended) }
        ensures cause { IfErr result (λ ended. fault_in ended ≡ None) }
        ensures wrote { OnOk result (WroteUntil
            (item_of refused.now) self.now (M.taken sink.old) (M.taken sink.new)) }
        ensures part { IfErr result (λ ended. WrotePartUntil
            (item_of refused.now) self.now (M.taken sink.old) (M.taken sink.new) ended) }
    {
        let edits = self.caused_until(refused)?;
        write_edits(self.scopes.alloc, edits.as_slice(), sink)
    }
}
