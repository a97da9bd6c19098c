//! What is kept under a number.
ghost use Rattle.std.specs.Prelude.{◌≡◌, IfOk, is_some, map, option_map};
ghost use Rattle.std.specs.Option.{option_copied};
ghost use Rattle.run_records.specs.Records.{target_of};
ghost use Rattle.rt_model.specs.Lists.{at};
ghost use Rattle.rt_model.specs.Removal.{numbers_of};
ghost use Rattle.run_state.specs.Mirror.{scopes_of, state_of};

use rt_cells::{ReactiveContext, Target};
use rt_values::{Boxed, List, OutOfMemory, ScopeId};
use run_records::Scope;
use run_state::State;
use std::alloc::Global;
use tree_nodes::Parts;

/// Whether a cell is there.
pub fn has_cell<P: Parts>(state: &State<P>, cell: u64) -> bool
    ensures { (g : _) → result ≡ is_some (at (state_of g state.now).cells cell) }
{
    match state.cells.get(cell) {
        Some(_value) => true,
        None => false,
    }
}

/// What a reactive context targets.
pub fn context_target<P: Parts>(state: &State<P>, context: u64) -> Option<Target>
    ensures { (g : _) → option_map target_of result
        ≡ option_map (λ x. x.target) (at (state_of g state.now).contexts context) }
{
    ReactiveContext(context).target(&state.cells)
}

/// The value of a cell.
pub fn value_of<P: Parts>(state: &State<P>, cell: u64) -> Option<&P::Value>
    ensures value { (g : _) → option_copied result
        ≡ option_map (λ row. row.value) (at (state_of g state.now).cells cell) }
{
    state.cells.get(cell)
}

/// The live scopes, in the order in which they stand.
pub fn live_scopes<P: Parts>(alloc: Global, state: &State<P>) -> Result<List<ScopeId>, OutOfMemory>
    ensures scopes { IfOk result (λ scopes. (g : _) →
        map (λ scope. scope.0) scopes ≡ numbers_of (state_of g state.now).scopes) }
{
    scopes_in(alloc, state.rows.table.as_slice())
}

/// The numbers of rows.
fn scopes_in<P: Parts>(
    alloc: Global,
    rows: &[(u64, Boxed<Scope<P>>)],
) -> Result<List<ScopeId>, OutOfMemory>
    ensures { IfOk result (λ scopes.
        map (λ scope. scope.0) scopes ≡ numbers_of (scopes_of rows.now)) }
{
    let mut scopes = List::new(alloc);
    for row in rows {
        scopes.push(ScopeId(row.0))?;
    }
    Ok(scopes)
}
