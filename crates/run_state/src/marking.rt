//! Marks that are seen at once.
ghost use Rattle.std.specs.Prelude.{◌≡◌, IsOk, OnOk, OnErr};
ghost use Rattle.rt_model.specs.Sentences.{marked_now, all_marked_now};
ghost use Rattle.run_owed.specs.Lists.{joins, numbers_of};
ghost use Rattle.run_state.specs.Mirror.{scopes_of, state_of};

use crate::state::State;
use rt_values::{Boxed, OutOfMemory};
use run_owed::Owed;
use run_records::Scope;
use std::alloc::Global;
use tree_nodes::Parts;

impl<P: Parts> State<P> {
    /// Marks a live scope, which is seen at once. It takes no memory.
    pub fn mark_now(&mut self, scope: u64) -> Result<(), OutOfMemory>
        ensures ok { IsOk result }
        ensures marked { OnOk result ((g : _) →
            state_of g self.new ≡ marked_now (state_of g self.old) scope) }
        ensures err { OnErr result (self.new ≡ self.old) }
    {
        if !self.is_live(scope) {
            return Ok(());
        }
        self.owed.see(scope);
        Ok(())
    }

    /// Marks every live scope, which are seen at once. It takes no memory.
    pub fn mark_all_now(&mut self, _alloc: Global) -> Result<(), OutOfMemory>
        ensures ok { IsOk result }
        ensures marked { OnOk result ((g : _) → state_of g self.new
            ≡ all_marked_now (scopes_of self.old.rows.table) (state_of g self.old)) }
        ensures err { OnErr result (self.new ≡ self.old) }
    {
        see_all(self.rows.table.as_slice(), &mut self.owed);
        Ok(())
    }
}

/// All these scopes are seen. They are the entered ones.
fn see_all<P: Parts>(scopes: &[(u64, Boxed<Scope<P>>)], owed: &mut Owed)
    requires entered { numbers_of scopes.now ≡ numbers_of owed.old.scopes }
    ensures seen { owed.new ≡ record owed.old { seen = joins owed.old.seen (numbers_of scopes.now) } }
{
    for entry in scopes {
        owed.see(entry.0);
    }
}
