//! Who provides a value of a kind.
ghost use Rattle.std.specs.Prelude.{◌≡◌, map};
ghost use Rattle.std.specs.Option.{option_copied};
ghost use Rattle.rt_model.specs.Lists.{at};
ghost use Rattle.rt_model.specs.Queries.{provided_above, provided_here, provider};
ghost use Rattle.rt_model.specs.State.{climb};
ghost use Rattle.run_records.specs.Kept.{provided_of, scope_of};
ghost use Rattle.run_answers.specs.Provided.{provides};
ghost use Rattle.run_state.specs.Mirror.{scopes_of, state_of};

use run_records::{Provisions, Scope};
use run_state::State;
use tree_nodes::Parts;

/// What a scope itself provides of a kind. None where it provides none, and where it isn't live.
pub fn provided_here<P: Parts>(scopes: &State<P>, scope: u64, kind: u32) -> Option<&P::Value>
    ensures provided { (g : _) →
        option_copied result ≡ provided_here (state_of g scopes.now) scope kind }
{
    match scopes.scope(scope) {
        Some(found) => of_kind(&found.row.contexts, kind),
        None => None,
    }
}

/// What the nearest scope provides of a kind, from this one upwards. None where no scope does.
pub fn provided_above<P: Parts>(scopes: &State<P>, scope: u64, kind: u32) -> Option<&P::Value>
    ensures provided { (g : _) →
        option_copied result ≡ provided_above (state_of g scopes.now) scope kind }
{
    match provider(scopes, scope, kind) {
        Some(nearest) => provided_here(scopes, nearest, kind),
        None => None,
    }
}

/// The nearest scope from this one upwards that provides a kind.
fn provider<P: Parts>(scopes: &State<P>, scope: u64, kind: u32) -> Option<u64>
    ensures { (g : _) → result ≡ provider (state_of g scopes.now) scope kind }
{
    provider_from(scopes, kind, scopes.height_of(scope), scope)
}

/// The same, at most so many steps up.
fn provider_from<P: Parts>(scopes: &State<P>, kind: u32, steps: u64, scope: u64) -> Option<u64>
    ensures { result ≡ climb (provides kind) (scopes_of scopes.now.rows.table) steps scope }
{
    let Some(found) = scopes.scope(scope) else {
        return None;
    };
    if provides(found, kind) {
        return Some(scope);
    }
    let Some(parent) = found.row.parent else {
        return None;
    };
    if steps == 0 {
        return None;
    }
    provider_from(scopes, kind, steps - 1, parent.0)
}

/// Whether a scope itself provides a kind.
fn provides<P: Parts>(scope: &Scope<P>, kind: u32) -> bool
    ensures { result ≡ provides kind (scope_of scope.now) }
{
    of_kind(&scope.row.contexts, kind).is_some()
}

/// The first value of a kind.
fn of_kind<P: Parts>(contexts: &Provisions<P>, kind: u32) -> Option<&P::Value>
    ensures { option_copied result ≡ at (map provided_of contexts.now) kind }
{
    contexts.get(kind)
}
