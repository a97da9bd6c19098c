//! The scopes as they stand, or as they stood before a unit.

ghost use Rattle.std.specs.Prelude.{◌≡◌, ◌&&◌, ℕ, None, Some, is_some, option_map};
ghost use Rattle.std.specs.Option.{option_copied};
ghost use Rattle.rt_model.specs.Lists.{at};
ghost use Rattle.rt_model.specs.State.{same_side};
ghost use Rattle.run_places.specs.Places.{side_name_of};
ghost use Rattle.run_shown.specs.Look.{IsAlike, found_of, is_showing, look_at, look_below, look_is_shown, look_parent, look_shown, look_side, rung_in, seen_in, shown_on, stood_in};
ghost use Rattle.run_shown.specs.Remembered.{was_in};
ghost use Rattle.run_shown.specs.Stands.{ShowsRows, ShowsStood};

use crate::found::{Found, Rung, is_same_rung};
use crate::remembered::Remembered;
use rt_values::Boxed;
use run_places::{Side, SideName};
use run_records::{Rows, Scope};
use tree_nodes::{Parts, VComponent};

/// What is shown of a scope, as it stood before a unit.
#[derive(Drop)]
pub struct Stood<P: Parts> {
    pub parent: Option<u64>,
    pub height: u64,
    /// The side of the parent that it was made on.
    pub below: SideName,
    pub shows: Option<SideName>,
    pub main_side: Side<P>,
    pub other_sides: OtherSides<P>,
}

/// The two sides that a suspense boundary has beside its main one.
#[derive(Drop)]
pub enum OtherSides<P: Parts> {
    /// Nothing was ever rendered on either, as of a scope that is none: one stands for both.
    Bare(Side<P>),
    /// That of the children and that of the fallback.
    Two(Boxed<(Side<P>, Side<P>)>),
}

/// The scopes, each as it stood where that is kept, else as it stands.
#[derive(Drop)]
pub struct Look<'a, P: Parts> {
    rows: &'a Rows<P>,
    /// Of scopes that have changed, what they were; none of those that were not live.
    stood: Option<&'a Remembered<Stood<P>>>,
    /// How many scopes were live.
    scopes: u64,
}

impl<'a, P: Parts> Look<'a, P> {
    /// The scopes as they stand.
    pub fn now(rows: &'a Rows<P>) -> Look<'a, P>
        ensures each { (scope : ℕ) → look_at result scope
            ≡ seen_in None (at rows.now.table scope) }
        ensures shows { ShowsRows result rows.now.table }
    {
        Look {
            rows,
            stood: None,
            scopes: rows.table.as_slice().len() as u64,
        }
    }

    /// The scopes as they stood when so many of them were live. What has changed since is kept in
    /// `stood`, with None for each scope that was not live.
    pub fn before(rows: &'a Rows<P>, stood: &'a Remembered<Stood<P>>, scopes: u64) -> Look<'a, P>
        ensures each { (scope : ℕ) → look_at result scope
            ≡ seen_in (at stood.now scope) (at rows.now.table scope) }
        ensures stood { stood_in result ≡ stood.now }
        ensures count { result.scopes ≡ scopes }
        ensures shows { ShowsStood result rows.now.table stood.now scopes }
    {
        Look {
            rows,
            stood: Some(stood),
            scopes,
        }
    }

    /// The component of a scope that stands, where it is one of the application's.
    pub(crate) fn named(&self, scope: u64) -> Option<&P::Component> {
        match self.rows.table.get(scope) {
            Some(found) => own_component(&found.rest.component),
            None => None,
        }
    }

    /// How many scopes are live.
    pub(crate) fn scopes(&self) -> u64
        ensures { result ≡ self.now.scopes }
    {
        self.scopes
    }

    /// Whether it is kept what a scope was.
    fn is_kept(&self, scope: u64) -> bool
        ensures { result ≡ is_some (at (stood_in self.now) scope) }
    {
        match self.stood {
            Some(stood) => stood.has(scope),
            None => false,
        }
    }

    /// What is kept of a scope that was live.
    fn kept(&self, scope: u64) -> Option<&Stood<P>>
        ensures { option_copied result ≡ was_in (at (stood_in self.now) scope) }
    {
        match self.stood {
            Some(stood) => stood.get(scope),
            None => None,
        }
    }

    /// A scope as it stands.
    fn present(&self, scope: u64) -> Option<&Scope<P>>
        ensures { option_copied result ≡ at (self.now.rows.now).table scope }
    {
        self.rows.table.get(scope)
    }

    /// A live scope. What is found of it is found once for all that is asked.
    pub(crate) fn find(&self, scope: u64) -> Option<Found<'_, P>>
        ensures { option_map found_of result ≡ look_at self.now scope }
    {
        match self.kept(scope) {
            Some(stood) => Some(Found::Former(stood)),
            None => self.found_now(scope),
        }
    }

    /// The same of one of which no live scope is kept.
    fn found_now(&self, scope: u64) -> Option<Found<'_, P>>
        ensures { was_in (at (stood_in self.now) scope) ≡ None →
            option_map found_of result ≡ look_at self.now scope }
    {
        if self.is_kept(scope) {
            return None;
        }
        match self.present(scope) {
            Some(present) => Some(Found::Present(present)),
            None => None,
        }
    }

    /// The parent of a live scope.
    pub(crate) fn parent(&self, scope: u64) -> Option<u64>
        ensures { result ≡ look_parent self.now scope }
    {
        match self.find(scope) {
            Some(found) => found.rung().parent,
            None => None,
        }
    }

    /// The side of its parent that a live scope was made on.
    pub(crate) fn below(&self, scope: u64) -> Option<SideName>
        ensures { result ≡ look_below self.now scope }
    {
        match self.find(scope) {
            Some(found) => Some(found.rung().below),
            None => None,
        }
    }

    /// A side of a live scope.
    pub(crate) fn side(&self, scope: u64, name: SideName) -> Option<&Side<P>>
        ensures { option_copied result ≡ look_side self.now scope name }
    {
        match self.find(scope) {
            Some(found) => Some(found.side(name)),
            None => None,
        }
    }

    /// The side that a live scope shows, with what is kept of it.
    pub(crate) fn shown_side(&self, scope: u64) -> Option<&Side<P>>
        ensures { option_copied result ≡ look_shown self.now scope }
    {
        match self.find(scope) {
            Some(found) => found.shown(),
            None => None,
        }
    }

    /// Where a live scope stands, and which side it shows.
    fn rung(&self, scope: u64) -> Option<Rung>
        ensures { result ≡ rung_in (look_at self.now scope) }
    {
        match self.find(scope) {
            Some(found) => Some(found.rung()),
            None => None,
        }
    }

    /// Whether each scope above shows the side that the way to the scope is below.
    pub(crate) fn is_shown(&self, scope: u64) -> bool
        ensures { result ≡ look_is_shown self.now scope }
    {
        let Some(rung) = self.rung(scope) else {
            return false;
        };
        if rung.height == 0 {
            return true;
        }
        self.is_shown_on(rung.height - 1, rung.below, rung.parent)
    }

    /// Whether the parent shows the side, and each scope above it does, at most so many steps up.
    fn is_shown_on(&self, steps: u64, below: SideName, parent: Option<u64>) -> bool
        ensures { result ≡ shown_on self.now steps below parent }
    {
        let Some(parent) = parent else {
            return true;
        };
        let Some(rung) = self.rung(parent) else {
            return false;
        };
        if !is_side(rung.shows, below) {
            return false;
        }
        if steps == 0 {
            return true;
        }
        self.is_shown_on(steps - 1, rung.below, rung.parent)
    }

    /// Whether a scope that stands so in both looks is shown in both, where the other one shows what
    /// this one does of each scope of which nothing is kept.
    pub(crate) fn is_shown_too(
        &self,
        other: &Look<'_, P>,
        scope: u64,
        former: Rung,
        present: Rung,
    ) -> bool
        requires alike { IsAlike self.now other.now }
        requires stood { Some former ≡ rung_in (look_at self.now scope) }
        requires stands { Some present ≡ rung_in (look_at other.now scope) }
        ensures { result ≡ (look_is_shown self.now scope && look_is_shown other.now scope) }
    {
        if !is_same_rung(former, present) {
            return self.is_shown(scope) && other.is_shown(scope);
        }
        if former.height == 0 {
            return true;
        }
        self.is_shown_both(other, former.height - 1, former.below, former.parent)
    }

    /// Whether in both looks the parent shows the side, and each scope above it does. From a scope
    /// on of which something is kept they are asked one by one.
    fn is_shown_both(
        &self,
        other: &Look<'_, P>,
        steps: u64,
        below: SideName,
        parent: Option<u64>,
    ) -> bool
        requires alike { IsAlike self.now other.now }
        ensures { result
            ≡ (shown_on self.now steps below parent && shown_on other.now steps below parent) }
    {
        let Some(above) = parent else {
            return true;
        };
        if self.is_kept(above) {
            return self.is_shown_on(steps, below, parent)
                && other.is_shown_on(steps, below, parent);
        }
        let Some(rung) = other.rung(above) else {
            return false;
        };
        if !is_side(rung.shows, below) {
            return false;
        }
        if steps == 0 {
            return true;
        }
        self.is_shown_both(other, steps - 1, rung.below, rung.parent)
    }
}

/// Whether this side shows.
pub(crate) fn is_side(shows: Option<SideName>, below: SideName) -> bool
    ensures { result ≡ is_showing shows below }
{
    match shows {
        Some(name) => is_same_side(name, below),
        None => false,
    }
}

/// Whether two names of sides are one.
pub(crate) fn is_same_side(left: SideName, right: SideName) -> bool
    ensures { result ≡ same_side (side_name_of left) (side_name_of right) }
{
    match left {
        SideName::Main => matches!(right, SideName::Main),
        SideName::Children => matches!(right, SideName::Children),
        SideName::Fallback => matches!(right, SideName::Fallback),
    }
}

/// The component of the application's that this is, if it is one.
fn own_component<P: Parts>(component: &VComponent<P>) -> Option<&P::Component> {
    match component {
        VComponent::App {
            component,
            props: _,
        } => Some(component),
        VComponent::Fragment(_) => None,
        VComponent::ErrorBoundary(_) => None,
        VComponent::SuspenseBoundary(_) => None,
        VComponent::Root(_) => None,
    }
}
