//! A live scope, as it is looked at from outside.
ghost use Rattle.std.specs.Prelude.{◌≡◌, ◌↔◌, Some, None, IfSome, IfOk, IsErr, option_map};
ghost use Rattle.std.specs.Option.{option_copied};
ghost use Rattle.rt_model.specs.Lists.{at};
ghost use Rattle.tree_mirror.specs.Sealed.{tree_of};
ghost use Rattle.run_state.specs.Mirror.{state_of};
ghost use Rattle.run_state.specs.Outputs.{scope_seen, shown_output};

use crate::{State, side_of};
use rt_values::ScopeId;
use run_records::Scope;
use tree_nodes::{Parts, VNode};

/// The answer for a scope that has no output yet.
#[derive(Clone, Copy, Debug, PartialEq, Eq)]
pub struct NotBuilt;

/// A live scope. `get_scope` alone makes one.
#[derive(Drop)]
pub struct ScopeState<'a, P: Parts> {
    id: ScopeId,
    scope: &'a Scope<P>,
}

/// The scope with this number. None where it isn't live.
pub fn get_scope<P: Parts>(scopes: &State<P>, id: ScopeId) -> Option<ScopeState<'_, P>>
    ensures scope { (g : _) →
        option_map scope_seen result ≡ at (state_of g scopes.now).scopes id.0 }
    ensures number { IfSome result (λ state. state.id ≡ id) }
{
    match scopes.scope(id.0) {
        Some(scope) => Some(ScopeState { id, scope }),
        None => None,
    }
}

impl<'a, P: Parts> ScopeState<'a, P> {
    /// Its number.
    pub fn id(&self) -> ScopeId
        ensures number { result ≡ self.now.id }
    {
        self.id
    }

    /// The number of scopes above it.
    pub fn height(&self) -> u32
        ensures height { result ≡ (scope_seen self.now).height }
    {
        self.scope.rest.height
    }

    /// The output that it keeps, of a suspense boundary that of the side that shows. None where
    /// there is none yet.
    #[tactic(auto, using(crate::proofs::Outputs::seen))]
    pub fn try_root_node(&self) -> Option<&'a VNode<P>>
        ensures output { option_map tree_of (option_copied result)
            ≡ shown_output (scope_seen self.now) }
    {
        let scope = self.scope;
        match scope.rest.shows {
            Some(side) => side_of(scope, side).output.as_ref(),
            None => None,
        }
    }

    /// The same output. `NotBuilt` where there is none yet.
    pub fn root_node(&self) -> Result<&'a VNode<P>, NotBuilt>
        ensures output { IfOk result (λ tree.
            shown_output (scope_seen self.now) ≡ Some (tree_of tree.now)) }
        ensures not_built { IsErr result ↔ (shown_output (scope_seen self.now) ≡ None) }
    {
        match self.try_root_node() {
            Some(tree) => Ok(tree),
            None => Err(NotBuilt),
        }
    }
}
