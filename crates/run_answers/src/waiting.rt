//! Whether a caller may wait.
ghost use Rattle.std.specs.Prelude.{◌≡◌, ◌&&◌};
ghost use Rattle.rt_model.specs.Rendering.{suspended_remains};
ghost use Rattle.run_answers.specs.Polls.{answers, sees_none};
ghost use Rattle.run_state.specs.Mirror.{state_of};

use crate::poll::pending_where;
use crate::remaining::suspended_remains;
use run_reports::Poll;
use run_state::State;
use tree_nodes::Parts;

/// Pending where no scope is seen, and no message was left to drain.
pub fn waits<P: Parts>(state: &State<P>, emptied: bool) -> Poll<()>
    ensures waits { (g : _) → result ≡ answers (sees_none (state_of g state.now).seen && emptied) }
{
    pending_where(state.owed.sees_none() & emptied)
}

/// Pending where no scope is seen, a suspended task remains, and no message was left to drain.
pub fn waits_suspended<P: Parts>(state: &State<P>, emptied: bool) -> Poll<()>
    ensures waits { (g : _) → result ≡ answers (sees_none (state_of g state.now).seen
        && suspended_remains (state_of g state.now).tasks && emptied) }
{
    pending_where(state.owed.sees_none() & suspended_remains(state) & emptied)
}
