//! The scopes as a call can see them.
ghost use Rattle.std.specs.Prelude.{◌≡◌, ◌&&◌, [], nat_eq, length, map, OnOk, OnErr, option_and_then};
ghost use Rattle.std.specs.Option.{option_copied};
ghost use Rattle.rt_model.specs.Lists.{at, put, without, has};
ghost use Rattle.rt_model.specs.Program.{parent_in};
ghost use Rattle.rt_model.specs.Tree.{is_error_boundary};
ghost use Rattle.tree_mirror.specs.Sealed.{component_of};
ghost use Rattle.run_records.specs.World.{provided, rows_in, boundaries_in};
ghost use Rattle.run_records.specs.Records.{number_of, parents_of, renders_of, hook_of, hooks_of};

use crate::provisions::Provisions;
use crate::rest::{Rest, Scope, is_error_boundary, no_component};
use rt_values::{Boxed, List, OutOfMemory, ScopeId};
use run_places::SideName;
use run_table::BoxedTable;
use std::alloc::Global;
use tree_nodes::{CapturedError, Parts};

/// A hook with its kind: a value of the application's, or an effect.
#[derive(Drop)]
pub enum Hook<P: Parts> {
    Value(u32, P::Value),
    Effect(u32, P::Effect),
}

/// What a scope provides of a kind.
#[derive(Drop)]
pub struct Provided<P: Parts> {
    pub kind: u32,
    pub value: P::Value,
}

/// What a call can see of a scope.
#[derive(Drop)]
pub struct ScopeRow<P: Parts> {
    pub parent: Option<ScopeId>,
    /// How often its body answered a tree.
    pub renders: u64,
    pub hooks: List<Hook<P>>,
    pub contexts: Provisions<P>,
    /// The error that an error boundary keeps.
    pub error: Option<CapturedError>,
}

/// The rows of the live scopes, by number.
#[derive(Drop)]
pub struct Rows<P: Parts> {
    /// The runtime's own: all that is kept of each scope, in the order in which they were made.
    pub table: BoxedTable<Scope<P>>,
}

impl<P: Parts> Rows<P> {
    /// No row.
    pub fn new(alloc: Global) -> Rows<P>
        ensures empty { result.table ≡ [] }
    {
        Rows {
            table: BoxedTable::new(alloc),
        }
    }

    /// The row of a scope.
    #[tactic(auto, using(crate::proofs::RowsAt::found))]
    pub fn get(&self, id: ScopeId) -> Option<&ScopeRow<P>>
        ensures row { option_copied result ≡ at (rows_in self.now.table) id.0 }
    {
        match self.table.get(id.0) {
            Some(found) => Some(&found.row),
            None => None,
        }
    }

    /// Puts the row of a scope, in place of the one that stood there. Beside the row nothing is known
    /// of the scope then.
    #[tactic(auto, using(crate::proofs::RowsAt::found))]
    pub fn put(&mut self, alloc: Global, id: ScopeId, row: ScopeRow<P>) -> Result<(), OutOfMemory>
        ensures ok { OnOk result (rows_in self.new.table ≡ put (rows_in self.old.table) id.0 row) }
        ensures err { OnErr result (self.new ≡ self.old) }
    {
        let component = no_component(alloc)?;
        let rest = Rest::new(alloc, component, 0, SideName::Main, Some(SideName::Main));
        self.table.put(id.0, Scope { row, rest })
    }

    /// Takes the row of a scope out.
    #[tactic(auto, using(crate::proofs::RowsAt::found))]
    pub fn take(&mut self, id: ScopeId) -> Option<ScopeRow<P>>
        ensures row { result ≡ at (rows_in self.old.table) id.0 }
        ensures others { rows_in self.new.table ≡ without (rows_in self.old.table) id.0 }
    {
        let Scope { row, rest: _ } = self.table.take(id.0)?;
        Some(row)
    }
}

// What a call looks up of the rows.
impl<P: Parts> Rows<P> {
    /// How many rows there are.
    #[tactic(auto, using(crate::proofs::RowsAt::found))]
    pub fn len(&self) -> usize
        ensures len { result ≡ length (parents_of (rows_in self.now.table)) }
    {
        self.table.as_slice().len()
    }

    /// The parent of a scope.
    #[tactic(auto, using(crate::proofs::RowsAt::found))]
    pub fn parent(&self, id: ScopeId) -> Option<ScopeId>
        ensures { number_of result ≡ parent_in (parents_of (rows_in self.now.table)) id.0 }
    {
        match self.get(id) {
            Some(row) => row.parent,
            None => None,
        }
    }

    /// Whether a scope is an error boundary. Only where the numbers didn't rise is each scope looked at.
    pub fn is_boundary(&self, id: ScopeId) -> bool
        ensures { result ≡ has (boundaries_in self.now.table) id.0 }
    {
        if !self.table.rises() {
            return is_boundary_in(self.table.as_slice(), id.0);
        }
        match self.table.get(id.0) {
            Some(found) => is_error_boundary(&found.rest.component),
            None => false,
        }
    }

    /// The error that an error boundary keeps.
    pub fn error(&self, id: ScopeId) -> Option<&CapturedError>
        ensures { option_copied result
            ≡ option_and_then (λ row. row.error) (at (rows_in self.now.table) id.0) }
    {
        match self.get(id) {
            Some(row) => row.error.as_ref(),
            None => None,
        }
    }

    /// What a scope itself provides of a kind.
    pub fn provided(&self, id: ScopeId, kind: u32) -> Option<&P::Value>
        ensures { option_copied result
            ≡ option_and_then (λ row. provided row.contexts kind) (at (rows_in self.now.table) id.0) }
    {
        match self.get(id) {
            Some(row) => row.contexts.get(kind),
            None => None,
        }
    }

    /// How often a scope's body answered a tree.
    pub fn renders(&self, id: ScopeId) -> u64
        ensures { result ≡ renders_of (at (rows_in self.now.table) id.0) }
    {
        match self.get(id) {
            Some(row) => row.renders,
            None => 0,
        }
    }

    /// The hooks of a scope, in order.
    pub fn hooks(&self, id: ScopeId) -> &[Hook<P>]
        ensures { map hook_of result.now ≡ hooks_of (at (rows_in self.now.table) id.0) }
    {
        match self.get(id) {
            Some(row) => row.hooks.as_slice(),
            None => &[],
        }
    }
}

/// Whether a scope of this number is an error boundary.
fn is_boundary_in<P: Parts>(scopes: &[(u64, Boxed<Scope<P>>)], number: u64) -> bool
    ensures { result ≡ has (boundaries_in scopes.now) number }
{
    for entry in scopes {
        if bounds(entry, number) {
            return true;
        }
    }
    false
}

/// Whether a scope has this number and is an error boundary.
fn bounds<P: Parts>(entry: &(u64, Boxed<Scope<P>>), number: u64) -> bool
    ensures { result ≡ (nat_eq entry.now.0 number
        && is_error_boundary (component_of entry.now.1.rest.component)) }
{
    entry.0 == number && is_error_boundary(&entry.1.get().rest.component)
}
