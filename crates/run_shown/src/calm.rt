//! A side of a scope before and after a unit. Where its children write nothing, none is looked for.

ghost use Rattle.std.specs.Prelude.{◌≡◌};
ghost use Rattle.run_shown.specs.Calm.{are_calm, is_calm, is_quiet};
ghost use Rattle.run_shown.specs.Ways.{place_found};

use crate::showing::Shown;
use crate::sides::Unit;
use crate::touching::is_touched;
use crate::way::is_on_way;
use run_places::Place;
use tree_nodes::Parts;

/// One side of a scope before and after a unit.
#[derive(Drop)]
pub(crate) struct Sides<'a, P: Parts> {
    pub unit: &'a Unit<'a, P>,
    pub old: &'a Shown<'a, P>,
    pub new: &'a Shown<'a, P>,
    /// The refused place on it, or the one that leads there.
    pub stop: Option<&'a Place>,
    /// How many scopes deep its components may go.
    pub depth: u64,
    /// Whether none of its children writes anything.
    pub quiet: bool,
    pub ghost calm: { quiet ≡ is_quiet unit.now old.now (place_found stop) },
}

/// Whether no place of a side was refused and none of its children writes anything.
pub(crate) fn stays_quiet<P: Parts>(
    unit: &Unit<'_, P>,
    old: &Shown<'_, P>,
    stop: Option<&Place>,
) -> bool
    ensures { result ≡ is_quiet unit.now old.now (place_found stop.entry) }
{
    match stop {
        Some(_) => false,
        None => stay_calm(unit, old.side.children.as_slice()),
    }
}

// Whether each of these children writes nothing.
fn stay_calm<P: Parts>(unit: &Unit<'_, P>, children: &[(u64, u64)]) -> bool
    ensures { result ≡ are_calm unit.now children.now }
{
    for pair in children {
        if !stays_calm(unit, pair.1) {
            return false;
        }
    }
    true
}

// Whether a scope is as it was with all below it, or shows no more and isn't on the way.
fn stays_calm<P: Parts>(unit: &Unit<'_, P>, scope: u64) -> bool
    ensures { result ≡ is_calm unit.now scope }
{
    if !is_touched(unit.touched, scope) {
        return true;
    }
    !(is_on_way(unit.way, scope) || unit.after.is_shown(scope))
}
