//! What stands below a scope.
ghost use Rattle.std.specs.Prelude.{◌≡◌};
ghost use Rattle.rt_model.specs.Queries.{is_above, is_descendant};
ghost use Rattle.run_state.specs.Mirror.{scopes_of, state_of};

use run_state::State;
use tree_nodes::Parts;

/// Whether a live scope stands below another one. No scope stands below itself.
pub fn is_descendant<P: Parts>(scopes: &State<P>, scope: u64, above: u64) -> bool
    ensures below { (g : _) → result ≡ is_descendant (state_of g scopes.now) scope above }
{
    is_above(scopes, scopes.height_of(scope), scope, above)
}

/// Whether a scope is one of those above another, at most so many steps up.
fn is_above<P: Parts>(scopes: &State<P>, steps: u64, scope: u64, above: u64) -> bool
    ensures { result ≡ is_above (scopes_of scopes.now.rows.table) steps scope above }
{
    if steps == 0 {
        return false;
    }
    match scopes.parent_of(scope) {
        Some(parent) => {
            let further = is_above(scopes, steps - 1, parent, above);
            (parent == above) | further
        }
        None => false,
    }
}
