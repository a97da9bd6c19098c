//! What a suspense boundary waits for, and what it hides meanwhile.
ghost use Rattle.std.specs.Prelude.{◌≡◌, ◌↔◌, true, IsSome, IfSome, map, option_map};
ghost use Rattle.std.specs.Option.{option_copied};
ghost use Rattle.rt_model.specs.Lists.{at};
ghost use Rattle.rt_model.specs.State.{FallbackSide, is_boundary};
ghost use Rattle.tree_mirror.specs.Sealed.{tree_of};
ghost use Rattle.run_records.specs.Kept.{scope_of};
ghost use Rattle.run_records.specs.Futures.{holder_of};
ghost use Rattle.run_state.specs.Climbs.{shows_side};
ghost use Rattle.run_state.specs.Mirror.{state_of};
ghost use Rattle.rt_boundary.specs.Seen.{frozen_in, held_in, hidden_in, hidden_output, holders_in};

use author_calls::App;
use rt_scopes::Scopes;
use rt_values::ScopeId;
use run_places::SideName;
use run_records::Scope;
use run_state::is_held;
use tree_nodes::{Parts, SuspendedFuture, VNode};

/// A suspense boundary, which hides its children while tasks hold it.
#[derive(Clone, Copy, Debug, PartialEq, Eq)]
pub struct SuspenseContext {
    pub scope: ScopeId,
}

impl SuspenseContext {
    /// A scope as the suspense boundary that it is. None where it is none, or isn't live.
    pub fn downcast_suspense_boundary_from_scope<A: App>(
        scopes: &Scopes<A>,
        scope: ScopeId,
    ) -> Option<SuspenseContext>
        ensures boundary { (g : _) →
            IsSome result ↔ (is_boundary (state_of g scopes.now.state).scopes scope.0 ≡ true) }
        ensures scope { IfSome result (λ context. context.scope ≡ scope) }
    {
        if scopes.state.is_boundary(scope.0) {
            Some(SuspenseContext { scope })
        } else {
            None
        }
    }

    /// The children's kept output while they are hidden. None while they show, where they have none
    /// yet, and where the boundary was removed.
    pub fn suspended_nodes<'a, A: App>(&self, scopes: &'a Scopes<A>) -> Option<&'a VNode<A>>
        ensures hidden { (g : _) → option_map tree_of (option_copied result)
            ≡ hidden_in (at (state_of g scopes.now.state).scopes self.now.scope.0) }
    {
        match scopes.state.scope(self.scope.0) {
            Some(found) => hidden_output(found),
            None => None,
        }
    }

    /// Whether a suspended render passes over what is below the boundary. False where it was
    /// removed.
    pub fn frozen<A: App>(&self, scopes: &Scopes<A>) -> bool
        ensures frozen { (g : _) →
            result ≡ frozen_in (at (state_of g scopes.now.state).scopes self.now.scope.0) }
    {
        match scopes.state.scope(self.scope.0) {
            Some(found) => found.rest.frozen,
            None => false,
        }
    }

    /// Whether some task holds the boundary. False where it was removed.
    pub fn has_suspended_tasks<A: App>(&self, scopes: &Scopes<A>) -> bool
        ensures held { (g : _) →
            result ≡ held_in (at (state_of g scopes.now.state).scopes self.now.scope.0) }
    {
        match scopes.state.scope(self.scope.0) {
            Some(found) => is_held(found),
            None => false,
        }
    }

    /// Whether the children are hidden: the fallback shows in their place. False where the boundary
    /// was removed.
    pub fn is_suspended<A: App>(&self, scopes: &Scopes<A>) -> bool
        ensures hidden { (g : _) → result
            ≡ shows_side (at (state_of g scopes.now.state).scopes self.now.scope.0) FallbackSide }
    {
        scopes.state.shows_side(self.scope.0, SideName::Fallback)
    }

    /// The tasks that hold the boundary in order of joining, each with the scope that waits for it.
    /// None of them where the boundary was removed.
    pub fn suspended_futures<'a, A: App>(&self, scopes: &'a Scopes<A>) -> &'a [SuspendedFuture]
        ensures holders { (g : _) → map holder_of result.now
            ≡ holders_in (at (state_of g scopes.now.state).scopes self.now.scope.0) }
    {
        match scopes.state.scope(self.scope.0) {
            Some(found) => found.rest.holders.as_slice(),
            None => &[],
        }
    }
}

/// The output of a scope's children where its fallback shows.
#[tactic(auto, using(crate::proofs::Seen::seen))]
fn hidden_output<P: Parts>(scope: &Scope<P>) -> Option<&VNode<P>>
    ensures { option_map tree_of (option_copied result) ≡ hidden_output (scope_of scope.now) }
{
    match scope.rest.shows {
        Some(SideName::Fallback) => scope.rest.children_side.output.as_ref(),
        Some(SideName::Main) => None,
        Some(SideName::Children) => None,
        None => None,
    }
}
