//! The reactive contexts that a call has entered, the last one at the end.
ghost use Rattle.std.specs.Prelude.{◌≡◌, ◌∷◌, [], MatchOption};
ghost use Rattle.rt_model.specs.Program.{left_behind};
ghost use Rattle.author_calls.specs.Calls.{contexts_of};

use rt_cells::ReactiveContext;
use rt_values::List;

/// The context that was entered last.
#[tactic(auto, using(crate::proofs::Gathered::entering))]
pub(crate) fn last_entered(into: &List<ReactiveContext>) -> Option<ReactiveContext>
    ensures last { MatchOption result (contexts_of into.now ≡ [])
        (λ last. contexts_of into.now ≡ last.0 ∷ left_behind (contexts_of into.now)) }
{
    into.as_slice().last().copied()
}

/// Leaves the context that was entered last.
#[tactic(auto, using(crate::proofs::Gathered::entering))]
pub(crate) fn leave_last(into: &mut List<ReactiveContext>)
    ensures left { contexts_of into.new ≡ left_behind (contexts_of into.old) }
{
    let _context = into.pop();
}
