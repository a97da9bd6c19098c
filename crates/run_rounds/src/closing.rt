//! The removal of all scopes.
ghost use Rattle.rt_model.specs.Removal as removal;
ghost use Rattle.rt_scopes.specs.Outcomes.{Comes, no_work};

use author_calls::{App, Calls};
use rt_values::ScopeId;
use run_answers::ranked_scopes;
use run_machine::Machine;
use run_state::Stop;

/// Removes each scope, from the greatest order down, with its clean-ups. They are put in order once:
/// a scope that goes takes no other one with it, and no height changes.
pub fn close<A: App>(machine: &mut Machine<A>, app: &A, calls: &mut Calls) -> Result<(), Stop>
    ensures closed { Comes (λ w. removal.close (A.meaning app.now) w)
        machine.old.scopes.state calls.old machine.new.scopes.state calls.new no_work result }
{
    let count = machine.scopes.state.rows.table.as_slice().len();
    let ranks = ranked_scopes(machine.scopes.alloc, &machine.scopes.state)?;
    let mut left = ranks.iter();
    for _scope in 0..count {
        let Some(last) = left.next_back() else {
            return Ok(());
        };
        machine
            .scopes
            .remove_leaf(app, calls, ScopeId(last.1), false)?;
    }
    Ok(())
}
