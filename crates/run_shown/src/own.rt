//! What a unit writes for its own scope, where nothing of it was refused.

ghost use Rattle.std.specs.Prelude.{IfOk};
ghost use Rattle.run_shown.specs.Look.{IsAlike};
ghost use Rattle.run_shown.specs.Units.{Writes, both_writes, unit_writes};

use crate::comparing::found_written;
use crate::edited::{Edited, nothing, then_stop};
use crate::sides::Unit;
use crate::way::is_on_way;
use rt_values::OutOfMemory;
use run_places::LEVELS;
use std::alloc::Global;
use tree_nodes::Parts;

/// What the scope of a unit writes, at most `depth` scopes deep.
#[tactic(auto, using(crate::proofs::Writings::writings))]
pub(crate) fn own_written<P: Parts>(
    alloc: Global,
    unit: &Unit<'_, P>,
    depth: u64,
    scope: u64,
) -> Result<Edited, OutOfMemory>
    requires alike { IsAlike unit.now.before.now unit.now.after.now }
    ensures { IfOk result (λ written. Writes unit.now written
        (λ app. unit_writes app unit.now depth scope)) }
{
    if depth == 0 {
        return Ok(nothing(alloc));
    }
    let stops = is_on_way(unit.way, scope);
    let written = shown_written(alloc, unit, depth - 1, scope)?;
    then_stop(alloc, written, stops)
}

// What it writes where it is shown both before and after. It is found once in each look, and climbed
// from once for both, as far as they show the same.
#[tactic(auto, using(crate::proofs::Writings::writings))]
fn shown_written<P: Parts>(
    alloc: Global,
    unit: &Unit<'_, P>,
    depth: u64,
    scope: u64,
) -> Result<Edited, OutOfMemory>
    requires alike { IsAlike unit.now.before.now unit.now.after.now }
    ensures { IfOk result (λ written. Writes unit.now written
        (λ app. both_writes app unit.now depth scope)) }
{
    let Some(former) = unit.before.find(scope) else {
        return Ok(nothing(alloc));
    };
    let Some(present) = unit.after.find(scope) else {
        return Ok(nothing(alloc));
    };
    if !unit
        .before
        .is_shown_too(unit.after, scope, former.rung(), present.rung())
    {
        return Ok(nothing(alloc));
    }
    found_written(alloc, unit, depth, scope, &former, &present, LEVELS)
}
