//! Where errors of a scope come to.
ghost use Rattle.std.specs.Prelude.{◌≡◌, option_map};
ghost use Rattle.std.specs.Option.{option_copied};
ghost use Rattle.rt_model.specs.State.{error_context, values_of};
ghost use Rattle.tree_mirror.specs.Mirror.{error_of};
ghost use Rattle.run_state.specs.Mirror.{state_of};

use author_calls::App;
use rt_scopes::Scopes;
use rt_values::ScopeId;
use tree_nodes::CapturedError;

/// An error boundary, which keeps the first error that was thrown below it.
#[derive(Clone, Copy, Debug, PartialEq, Eq)]
pub struct ErrorContext {
    pub scope: ScopeId,
}

impl ErrorContext {
    /// The nearest error boundary from a scope upwards, itself included. None where there is none,
    /// as of a scope that isn't live.
    pub fn of<A: App>(scopes: &Scopes<A>, scope: ScopeId) -> Option<ErrorContext>
        ensures nearest { (g : _) → option_map (λ context. context.scope.0) result
            ≡ error_context (state_of g scopes.now.state) scope.0 }
    {
        match scopes.state.error_context(scope.0) {
            Some(boundary) => Some(ErrorContext {
                scope: ScopeId(boundary),
            }),
            None => None,
        }
    }

    /// The error that the boundary keeps. None where it keeps none, and where it was removed.
    pub fn error<'a, A: App>(&self, scopes: &'a Scopes<A>) -> Option<&'a CapturedError>
        ensures kept { (g : _) → option_map error_of (option_copied result)
            ≡ (values_of (state_of g scopes.now.state)).error self.now.scope.0 }
    {
        match scopes.state.scope(self.scope.0) {
            Some(found) => found.row.error.as_ref(),
            None => None,
        }
    }
}
