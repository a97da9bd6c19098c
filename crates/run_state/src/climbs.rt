//! The way up from a scope, which has at most as many steps as the scope's height.
ghost use Rattle.std.specs.Prelude.{◌≡◌, true, false, Some, IfNone, IfSome, option_map};
ghost use Rattle.rt_model.specs.State as model;
ghost use Rattle.rt_model.specs.State.{climb, error_context, suspense_context, location, location_from, is_shown, is_side};
ghost use Rattle.rt_model.specs.Lists.{at};
ghost use Rattle.run_records.specs.Kept.{scope_of};
ghost use Rattle.tree_mirror.specs.Sealed.{component_of};
ghost use Rattle.run_places.specs.Places.{side_name_of};
ghost use Rattle.run_state.specs.Climbs.{is_sought, shows_side, place_above};
ghost use Rattle.run_state.specs.Mirror.{scopes_of, state_of};
ghost use Rattle.run_state.specs.Mounts.{Way, hides, hides_over, shown_in, shown_over, way_of, ways_of};

use crate::scopes::is_suspense_boundary;
use crate::state::State;
use run_places::SideName;
use run_records::{Scope, is_error_boundary};
use tree_nodes::{Parts, VComponent};

/// What a climb looks for.
#[derive(Clone, Copy, Debug, PartialEq, Eq)]
enum Sought {
    ErrorBoundary,
    SuspenseBoundary,
}

/// Whether a component is what a climb looks for.
fn is_sought<P: Parts>(sought: Sought, component: &VComponent<P>) -> bool
    ensures { result ≡ is_sought sought (component_of component.now) }
{
    match sought {
        Sought::ErrorBoundary => is_error_boundary(component),
        Sought::SuspenseBoundary => is_suspense_boundary(component),
    }
}

impl<P: Parts> State<P> {
    /// The nearest error boundary from a scope upwards.
    pub fn error_context(&self, scope: u64) -> Option<u64>
        ensures { (g : _) → result ≡ error_context (state_of g self.now) scope }
    {
        self.climb(Sought::ErrorBoundary, self.height_of(scope), scope)
    }

    /// The nearest suspense boundary from a scope upwards.
    pub fn suspense_context(&self, scope: u64) -> Option<u64>
        ensures { (g : _) → result ≡ suspense_context (state_of g self.now) scope }
    {
        self.climb(Sought::SuspenseBoundary, self.height_of(scope), scope)
    }

    /// The first scope from this one upwards that is sought, at most so many steps up.
    fn climb(&self, sought: Sought, steps: u64, scope: u64) -> Option<u64>
        ensures { result
            ≡ climb (λ x. is_sought sought x.component) (scopes_of self.now.rows.table) steps scope }
    {
        let Some(found) = self.scope(scope) else {
            return None;
        };
        if is_sought(sought, &found.rest.component) {
            return Some(scope);
        }
        let Some(parent) = found.row.parent else {
            return None;
        };
        if steps == 0 {
            return None;
        }
        self.climb(sought, steps - 1, parent.0)
    }

    /// The suspense boundary above a scope, with the side that the scope is below. A boundary stands on
    /// its own, so it has no location among another's children.
    pub fn location(&self, scope: u64) -> Option<(u64, SideName)>
        ensures { (g : _) → option_map place_above result ≡ location (state_of g self.now) scope }
    {
        self.location_from(self.height_of(scope), scope)
    }

    /// The way up to that boundary, at most so many steps.
    fn location_from(&self, steps: u64, scope: u64) -> Option<(u64, SideName)>
        ensures { option_map place_above result
            ≡ location_from (scopes_of self.now.rows.table) steps scope }
    {
        if steps == 0 {
            return None;
        }
        let Some(found) = self.scope(scope) else {
            return None;
        };
        let Some(parent) = found.row.parent else {
            return None;
        };
        if self.is_boundary(parent.0) {
            return Some((parent.0, found.rest.below));
        }
        self.location_from(steps - 1, parent.0)
    }

    /// Whether a live scope shows: each scope above shows the side that the way is below.
    pub fn is_shown(&self, scope: u64) -> bool
        ensures { (g : _) → result ≡ is_shown (state_of g self.now) scope }
    {
        self.shows(scope)
    }

    /// Whether a live scope shows, by the table of scopes.
    pub(crate) fn shows(&self, scope: u64) -> bool
        ensures { result ≡ shown_in (scopes_of self.now.rows.table) scope }
    {
        let Some(found) = self.scope(scope) else {
            return false;
        };
        if found.rest.height == 0 {
            return true;
        }
        self.shown_above(found.rest.height as u64 - 1, found)
    }

    /// Whether the parent of a scope shows the way, and the scopes above it do, at most so many
    /// steps up.
    fn shown_above(&self, steps: u64, found: &Scope<P>) -> bool
        ensures { result ≡ shown_over (scopes_of self.now.rows.table) steps (scope_of found.now) }
    {
        let Some(parent) = found.row.parent else {
            return true;
        };
        let Some(above) = self.scope(parent.0) else {
            return false;
        };
        if !is_side(above.rest.shows, found.rest.below) {
            return false;
        }
        if steps == 0 {
            return true;
        }
        self.shown_above(steps - 1, above)
    }

    /// The number of a scope above that hides this one; None where it shows.
    pub(crate) fn hider(&self, scope: u64) -> Option<u64>
        ensures hidden { IfSome result (λ above. (x : Way) → at (ways_of self.now.rows.table) scope ≡ Some x
            → hides (ways_of self.now.rows.table) above x.height scope ≡ true) }
        ensures unshown { IfSome result (λ _. shown_in (scopes_of self.now.rows.table) scope ≡ false) }
        ensures shown { IfNone result (shown_in (scopes_of self.now.rows.table) scope ≡ true) }
    {
        let Some(found) = self.scope(scope) else {
            return Some(scope);
        };
        if found.rest.height == 0 {
            return None;
        }
        self.hider_above(found.rest.height as u64 - 1, found)
    }

    /// The same where it is known of one scope that it shows: nothing hides that one.
    pub(crate) fn hider_past(&self, known: Option<u64>, scope: u64) -> Option<u64>
        requires known { IfSome known (λ s. shown_in (scopes_of self.now.rows.table) s ≡ true) }
        ensures hidden { IfSome result (λ above. (x : Way) → at (ways_of self.now.rows.table) scope ≡ Some x
            → hides (ways_of self.now.rows.table) above x.height scope ≡ true) }
        ensures unshown { IfSome result (λ _. shown_in (scopes_of self.now.rows.table) scope ≡ false) }
        ensures shown { IfNone result (shown_in (scopes_of self.now.rows.table) scope ≡ true) }
    {
        let Some(one) = known else {
            return self.hider(scope);
        };
        if one == scope {
            return None;
        }
        self.hider(scope)
    }

    /// The parent of a scope that shows, which shows as well: None where that can't be told.
    pub(crate) fn shown_parent(&self, scope: u64) -> Option<u64>
        requires shown { shown_in (scopes_of self.now.rows.table) scope ≡ true }
        ensures { IfSome result (λ s. shown_in (scopes_of self.now.rows.table) s ≡ true) }
    {
        let Some(found) = self.scope(scope) else {
            return None;
        };
        if found.rest.height == 0 {
            return None;
        }
        let Some(parent) = found.row.parent else {
            return None;
        };
        let Some(above) = self.scope(parent.0) else {
            return None;
        };
        if above.rest.height as u64 != found.rest.height as u64 - 1 {
            return None;
        }
        Some(parent.0)
    }

    /// The number of the parent or of a scope above it that hides this one, at most so many steps
    /// up.
    fn hider_above(&self, steps: u64, found: &Scope<P>) -> Option<u64>
        ensures hidden { IfSome result (λ above.
            hides_over (ways_of self.now.rows.table) above steps (way_of found.now) ≡ true) }
        ensures shown { IfNone result (true
            ≡ shown_over (scopes_of self.now.rows.table) steps (scope_of found.now)) }
    {
        let Some(parent) = found.row.parent else {
            return None;
        };
        let Some(above) = self.scope(parent.0) else {
            return Some(parent.0);
        };
        if !is_side(above.rest.shows, found.rest.below) {
            return Some(parent.0);
        }
        if steps == 0 {
            return None;
        }
        self.hider_above(steps - 1, above)
    }

    /// Whether a live scope shows this side.
    #[tactic(auto, using(crate::proofs::Each::eaches))]
    pub fn shows_side(&self, scope: u64, side: SideName) -> bool
        ensures { result ≡ shows_side (at (scopes_of self.now.rows.table) scope) (side_name_of side) }
    {
        match self.scope(scope) {
            Some(found) => is_side(found.rest.shows, side),
            None => false,
        }
    }
}

/// Whether this side is the one.
fn is_side(shown: Option<SideName>, side: SideName) -> bool
    ensures { result ≡ is_side (option_map side_name_of shown) (side_name_of side) }
{
    match (shown, side) {
        (Some(SideName::Main), SideName::Main) => true,
        (Some(SideName::Children), SideName::Children) => true,
        (Some(SideName::Fallback), SideName::Fallback) => true,
        _ => false,
    }
}
