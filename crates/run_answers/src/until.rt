//! Up to where a call takes unit after unit.
ghost use Rattle.std.specs.Prelude.{◌≡◌, OnOk};
ghost use Rattle.law_behavior.specs.Doms.{ends_by, left_by};
ghost use Rattle.rt_model.specs.Next.{at_rest};
ghost use Rattle.run_answers.specs.Untils.{until_of};
ghost use Rattle.run_state.specs.Mirror.{state_of};

use crate::owed::{finds, owes};
use rt_values::OutOfMemory;
use run_state::State;
use std::alloc::Global;
use tree_nodes::Parts;

/// Up to where a call goes on.
#[derive(Clone, Copy, Debug, PartialEq, Eq)]
pub enum Until {
    /// A scope is seen, or nothing is owed.
    Events,
    /// Nothing is seen or queued.
    Renders,
    /// Nothing is owed.
    Settles,
}

/// Whether a call ends here. The state stays as it is.
pub fn ends<P: Parts>(state: &State<P>, until: Until) -> bool
    ensures { (g : _) → result ≡ ends_by (until_of until) (state_of g state.now) }
{
    match until {
        Until::Events => !state.owed.sees_none() || !owes(state),
        Until::Renders => !finds(state),
        Until::Settles => !owes(state),
    }
}

/// Leaves the state as the test for the end does.
pub fn leave<P: Parts>(alloc: Global, state: &mut State<P>, until: Until) -> Result<(), OutOfMemory>
    ensures { OnOk result ((g : _) →
        state_of g state.new ≡ left_by (until_of until) (state_of g state.old)) }
{
    match until {
        Until::Events => {
            if state.owed.sees_none() {
                rest(alloc, state)
            } else {
                Ok(())
            }
        }
        Until::Renders => {
            let _next = state.drop_paused();
            Ok(())
        }
        Until::Settles => rest(alloc, state),
    }
}

/// Leaves the state as the test for what comes next does.
fn rest<P: Parts>(alloc: Global, state: &mut State<P>) -> Result<(), OutOfMemory>
    ensures { OnOk result ((g : _) →
        state_of g state.new ≡ at_rest (state_of g state.old)) }
{
    let _next = state.at_rest(alloc)?;
    Ok(())
}
