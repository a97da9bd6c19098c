//! The live scopes in their order, for a walk through all of them.
ghost use Rattle.std.specs.Prelude.{◌≡◌, ◌&&◌, ℕ, nat_eq, IfOk};
ghost use Rattle.rt_model.specs.Lists.{has};
ghost use Rattle.rt_model.specs.Removal.{numbers_of};
ghost use Rattle.rt_model.specs.State.{height_of};
ghost use Rattle.run_answers.specs.Ranked.{AreRanked};
ghost use Rattle.run_state.specs.Effects.{has_rank};
ghost use Rattle.run_state.specs.Mirror.{scopes_of};

use rt_values::{Boxed, OutOfMemory};
use run_records::Scope;
use run_state::{Ranks, State};
use std::alloc::Global;
use tree_nodes::Parts;

/// The live scopes, each with its height. They stand in their order: by height and then by number.
pub fn ranked_scopes<P: Parts>(alloc: Global, state: &State<P>) -> Result<Ranks, OutOfMemory>
    ensures ranked { IfOk result (AreRanked (scopes_of state.now.rows.table)) }
{
    ranks_in(alloc, state, state.rows.table.as_slice())
}

/// The numbers of rows, each with the height of its scope.
fn ranks_in<P: Parts>(
    alloc: Global,
    state: &State<P>,
    rows: &[(u64, Boxed<Scope<P>>)],
) -> Result<Ranks, OutOfMemory>
    ensures { IfOk result (λ ranks. (h s : ℕ) → has_rank ranks h s
        ≡ (has (numbers_of (scopes_of rows.now)) s
        && nat_eq (height_of (scopes_of state.now.rows.table) s) h)) }
{
    let mut ranks = Ranks::new(alloc);
    for row in rows {
        ranks.insert(state.height_of(row.0), row.0)?;
    }
    Ok(ranks)
}
