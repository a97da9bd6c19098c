//! What is found of a scope: where it stands, the side that it shows, and its sides, as it stood before a
//! unit or as it stands.

ghost use Rattle.std.specs.Prelude.{◌≡◌, true};
ghost use Rattle.std.specs.Option.{option_copied};
ghost use Rattle.run_records.specs.Records.{number_of};
ghost use Rattle.run_shown.specs.Look.{children_in, fallback_in, found_of, rung_of, shown_of, side_standing, side_stood, standing};

use crate::look::{OtherSides, Stood};
use rt_values::ScopeId;
use run_places::{Side, SideName};
use run_records::Scope;
use tree_nodes::Parts;

/// What a look finds of a live scope: what is kept of it as it stood, or the scope as it stands.
#[derive(Drop)]
pub(crate) enum Found<'a, P: Parts> {
    Former(&'a Stood<P>),
    Present(&'a Scope<P>),
}

/// Where a scope stands, and which side it shows.
#[derive(Clone, Copy, PartialEq, Eq)]
pub(crate) struct Rung {
    pub parent: Option<u64>,
    pub height: u64,
    /// The side of the parent that it was made on.
    pub below: SideName,
    pub shows: Option<SideName>,
}

impl<'a, P: Parts> Found<'a, P> {
    /// Where it stands.
    pub(crate) fn rung(&self) -> Rung
        ensures { result ≡ rung_of (found_of self.now) }
    {
        match self {
            Found::Former(stood) => rung_stood(stood),
            Found::Present(scope) => rung_now(scope),
        }
    }

    /// The side that it shows.
    pub(crate) fn shows(&self) -> Option<SideName>
        ensures { result ≡ (found_of self.now).shows }
    {
        match self {
            Found::Former(stood) => stood.shows,
            Found::Present(scope) => scope.rest.shows,
        }
    }

    /// One of its sides.
    pub(crate) fn side(&self, name: SideName) -> &'a Side<P>
        ensures { result.now ≡ side_stood (found_of self.now) name }
    {
        match self {
            Found::Former(stood) => side_of_stood(*stood, name),
            Found::Present(scope) => side_of_scope(*scope, name),
        }
    }

    /// The side that shows, with what is kept of it.
    pub(crate) fn shown(&self) -> Option<&'a Side<P>>
        ensures { option_copied result ≡ shown_of (found_of self.now) }
    {
        match self.shows() {
            Some(name) => Some(self.side(name)),
            None => None,
        }
    }
}

/// Whether a scope stands where it did, and shows the same side.
pub(crate) fn is_same_rung(former: Rung, present: Rung) -> bool
    ensures { result ≡ true → former ≡ present }
{
    former == present
}

/// Where a scope stood.
pub(crate) fn rung_stood<P: Parts>(stood: &Stood<P>) -> Rung
    ensures { result ≡ rung_of stood.now }
{
    Rung {
        parent: stood.parent,
        height: stood.height,
        below: stood.below,
        shows: stood.shows,
    }
}

/// Where a scope stands.
pub(crate) fn rung_now<P: Parts>(scope: &Scope<P>) -> Rung
    ensures { result ≡ rung_of (standing scope.now) }
{
    Rung {
        parent: parent_of(scope.row.parent),
        height: scope.rest.height as u64,
        below: scope.rest.below,
        shows: scope.rest.shows,
    }
}

/// The number of a parent.
pub(crate) fn parent_of(parent: Option<ScopeId>) -> Option<u64>
    ensures { result ≡ number_of parent }
{
    match parent {
        Some(parent) => Some(parent.0),
        None => None,
    }
}

/// A side of a scope as it stood.
pub(crate) fn side_of_stood<P: Parts>(stood: &Stood<P>, name: SideName) -> &Side<P>
    ensures { result.now ≡ side_stood stood.now name }
{
    match name {
        SideName::Main => &stood.main_side,
        SideName::Children => children_of(&stood.other_sides),
        SideName::Fallback => fallback_of(&stood.other_sides),
    }
}

/// The side of the children.
fn children_of<P: Parts>(sides: &OtherSides<P>) -> &Side<P>
    ensures { result.now ≡ children_in sides.now }
{
    match sides {
        OtherSides::Bare(side) => side,
        OtherSides::Two(two) => &two.get().0,
    }
}

/// The side of the fallback.
fn fallback_of<P: Parts>(sides: &OtherSides<P>) -> &Side<P>
    ensures { result.now ≡ fallback_in sides.now }
{
    match sides {
        OtherSides::Bare(side) => side,
        OtherSides::Two(two) => &two.get().1,
    }
}

/// A side of a scope as it stands.
pub(crate) fn side_of_scope<P: Parts>(scope: &Scope<P>, name: SideName) -> &Side<P>
    ensures { result.now ≡ side_standing scope.now name }
{
    match name {
        SideName::Main => &scope.rest.main_side,
        SideName::Children => &scope.rest.children_side,
        SideName::Fallback => &scope.rest.fallback_side,
    }
}
