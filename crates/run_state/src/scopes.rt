//! What a scope's record says.
ghost use Rattle.std.specs.Prelude.{◌≡◌, ℕ, [], map, Option, Some, None, option_map, if◌then◌else◌};
ghost use Rattle.rt_model.specs.State as model;
ghost use Rattle.rt_model.specs.State.{new_scope, is_held, holds, parent_of, height_of, hooks_of, renders_of, is_boundary, MainSide};
ghost use Rattle.rt_model.specs.Run.{has_output};
ghost use Rattle.rt_model.specs.Tree as tree;
ghost use Rattle.run_records.specs.Records.{number_of, hook_of};
ghost use Rattle.tree_mirror.specs.Sealed.{component_of};
ghost use Rattle.run_places.specs.Places.{side_name_of, side_of};
ghost use Rattle.run_records.specs.Kept.{scope_of};
ghost use Rattle.run_state.specs.Mirror.{scopes_of, state_of};
ghost use Rattle.run_state.specs.Sides.{side_put};

use crate::state::State;
use rt_values::{List, ScopeId};
use run_places::{Side, SideName};
use run_records::{Holders, Hook, Provisions, Rest, Scope, ScopeRow};
use std::alloc::Global;
use tree_nodes::{Parts, VComponent};

/// A scope at its making, not yet run.
pub fn new_scope<P: Parts>(
    alloc: Global,
    component: VComponent<P>,
    parent: Option<u64>,
    height: u32,
    below: SideName,
) -> Scope<P>
    ensures { scope_of result
        ≡ new_scope (component_of component) parent height (side_name_of below) }
{
    let shows = first_shown(&component);
    let row = ScopeRow {
        parent: scope_id(parent),
        renders: 0,
        hooks: List::new(alloc),
        contexts: Provisions::new(alloc),
        error: None,
    };
    let rest = Rest {
        component,
        height,
        below,
        main_side: Side::empty(alloc),
        children_side: Side::empty(alloc),
        fallback_side: Side::empty(alloc),
        reads: List::new(alloc),
        mounted: false,
        effects: List::new(alloc),
        shows,
        holders: Holders::new(alloc),
        frozen: false,
        callbacks: List::new(alloc),
    };
    Scope { row, rest }
}

/// The side that a scope shows at its making.
fn first_shown<P: Parts>(component: &VComponent<P>) -> Option<SideName>
    ensures { option_map side_name_of result
        ≡ (if tree.is_suspense_boundary (component_of component.now) then None else Some MainSide) }
{
    if is_suspense_boundary(component) {
        None
    } else {
        Some(SideName::Main)
    }
}

/// A scope's name, by its number.
fn scope_id(number: Option<u64>) -> Option<ScopeId>
    ensures { number_of result ≡ number }
{
    match number {
        Some(number) => Some(ScopeId(number)),
        None => None,
    }
}

/// A scope's number, by its name.
fn scope_number(name: Option<ScopeId>) -> Option<u64>
    ensures { result ≡ number_of name }
{
    match name {
        Some(name) => Some(name.0),
        None => None,
    }
}

/// Whether a component is a suspense boundary.
#[tactic(auto, using(crate::proofs::Components::components))]
pub fn is_suspense_boundary<P: Parts>(component: &VComponent<P>) -> bool
    ensures { result ≡ tree.is_suspense_boundary (component_of component.now) }
{
    match component {
        VComponent::SuspenseBoundary(_) => true,
        VComponent::App { .. } => false,
        VComponent::Fragment(_) => false,
        VComponent::ErrorBoundary(_) => false,
        VComponent::Root(_) => false,
    }
}

/// A side of a scope.
pub fn side_of<P: Parts>(scope: &Scope<P>, side: SideName) -> &Side<P>
    ensures { side_of result.now ≡ model.side_of (scope_of scope.now) (side_name_of side) }
{
    match side {
        SideName::Main => &scope.rest.main_side,
        SideName::Children => &scope.rest.children_side,
        SideName::Fallback => &scope.rest.fallback_side,
    }
}

/// Puts another side in the place of one of a scope.
pub fn put_side<P: Parts>(scope: &mut Scope<P>, name: SideName, side: Side<P>)
    ensures put { scope.new ≡ side_put name side scope.old }
{
    match name {
        SideName::Main => scope.rest.main_side = side,
        SideName::Children => scope.rest.children_side = side,
        SideName::Fallback => scope.rest.fallback_side = side,
    }
}

/// Whether some task holds a boundary.
pub fn is_held<P: Parts>(scope: &Scope<P>) -> bool
    ensures { result ≡ is_held (scope_of scope.now) }
{
    !scope.rest.holders.is_empty()
}

/// Whether this task holds a boundary.
pub fn holds<P: Parts>(scope: &Scope<P>, task: u64) -> bool
    ensures { result ≡ holds (scope_of scope.now) task }
{
    scope.rest.holders.has(task)
}

impl<P: Parts> State<P> {
    /// The parent of a live scope. The root wrapper alone has none.
    #[tactic(auto, using(crate::proofs::Each::eaches))]
    pub fn parent_of(&self, scope: u64) -> Option<u64>
        ensures { result ≡ parent_of (scopes_of self.now.rows.table) scope }
    {
        match self.scope(scope) {
            Some(found) => scope_number(found.row.parent),
            None => None,
        }
    }

    /// The number of scopes above a live scope.
    #[tactic(auto, using(crate::proofs::Each::eaches))]
    pub fn height_of(&self, scope: u64) -> u64
        ensures { result ≡ height_of (scopes_of self.now.rows.table) scope }
    {
        match self.scope(scope) {
            Some(found) => found.rest.height as u64,
            None => 0,
        }
    }

    /// What a scope keeps, by index.
    #[tactic(auto, using(crate::proofs::Each::eaches))]
    pub fn hooks_of(&self, scope: u64) -> &[Hook<P>]
        ensures { (g : _) → map hook_of result.now ≡ hooks_of (state_of g self.now) scope }
    {
        match self.scope(scope) {
            Some(found) => found.row.hooks.as_slice(),
            None => &[],
        }
    }

    /// How often a scope's body has answered a tree.
    #[tactic(auto, using(crate::proofs::Each::eaches))]
    pub fn renders_of(&self, scope: u64) -> u64
        ensures { (g : _) → result ≡ renders_of (state_of g self.now) scope }
    {
        match self.scope(scope) {
            Some(found) => found.row.renders,
            None => 0,
        }
    }

    /// Whether a scope has rendered something. One that is gone counts as having done so.
    #[tactic(auto, using(crate::proofs::Each::mappeds))]
    pub fn has_output(&self, scope: u64) -> bool
        ensures { (g : _) → result ≡ has_output (state_of g self.now) scope }
    {
        match self.scope(scope) {
            Some(found) => found.rest.main_side.output.is_some(),
            None => true,
        }
    }

    /// Whether a live scope is a suspense boundary.
    #[tactic(auto, using(crate::proofs::Each::eaches))]
    pub fn is_boundary(&self, scope: u64) -> bool
        ensures { result ≡ is_boundary (scopes_of self.now.rows.table) scope }
    {
        match self.scope(scope) {
            Some(found) => is_suspense_boundary(&found.rest.component),
            None => false,
        }
    }
}
