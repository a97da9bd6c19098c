//! Where a number stands in what shows, with the attribute slots on the way up from there.

ghost use Rattle.std.specs.Prelude.{◌≡◌, IfOk};
ghost use Rattle.run_shown.specs.Climbs.{climb_found, scope_climb};
ghost use Rattle.run_shown.specs.Leading.{IsHolder, KnowSeats, LeadsTo};

use crate::aimed::aim_within;
use crate::climb::{Climb, find_within};
use crate::look::Look;
use crate::sought::{Sought, way_to_number};
use rt_values::OutOfMemory;
use run_places::LEVELS;
use std::alloc::Global;
use tree_nodes::Parts;

/// The climb from a number in what the root shows, where it is told which scope has it.
pub(crate) fn find<P: Parts>(
    alloc: Global,
    look: &Look<'_, P>,
    number: u64,
    holder: Option<u64>,
) -> Result<Option<Climb<P>>, OutOfMemory>
    requires holds { IsHolder look.now number holder }
    requires seated { KnowSeats look.now }
    ensures { IfOk result (λ found. climb_found found
        ≡ scope_climb look.now number look.now.scopes 0) }
{
    match way_to_number(alloc, look, number, holder)? {
        Some(way) => {
            let sought = Sought { number, way: &way };
            find_on(alloc, look, &sought)
        }
        None => find_within(alloc, look, number, look.scopes(), 0, LEVELS),
    }
}

// The same where it is known which scopes lead to the number.
fn find_on<P: Parts>(
    alloc: Global,
    look: &Look<'_, P>,
    sought: &Sought<'_>,
) -> Result<Option<Climb<P>>, OutOfMemory>
    requires leads { LeadsTo look.now sought.now }
    ensures { IfOk result (λ found. climb_found found
        ≡ scope_climb look.now sought.now.number look.now.scopes 0) }
{
    if !sought.way.has(0) {
        return Ok(None);
    }
    aim_within(alloc, look, sought, look.scopes(), 0, LEVELS)
}
