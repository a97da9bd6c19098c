//! The edits that a unit writes, by comparing the scopes before and after it. A unit that a fault
//! ended wrote those before the refused place.

ghost use Rattle.std.specs.Prelude.{[], IfOk};
ghost use Rattle.run_shown.specs.Look.{IsAlike};
ghost use Rattle.run_shown.specs.Means.{AreBuilt};
ghost use Rattle.run_shown.specs.Reruns.{AreCaused, AreCausedUntil};
ghost use Rattle.run_shown.specs.Units.{AreOnWay};
ghost use Rattle.run_shown.specs.Ways.{way_of};

use crate::comparing::written_within;
use crate::edited::Edited;
use crate::look::{Look, Stood};
use crate::own::own_written;
use crate::remembered::Remembered;
use crate::rows::view;
use crate::scope_set::ScopeSet;
use crate::sides::Unit;
use crate::touching::touched_below;
use crate::way::{Stop, way_to};
use rt_edits::Edit;
use rt_values::{ElementId, List, OutOfMemory};
use run_places::LEVELS;
use run_records::Rows;
use run_work::Item;
use std::alloc::Global;
use tree_nodes::Parts;

/// What the build writes: the whole document.
pub fn built<P: Parts>(alloc: Global, after: &Look<'_, P>) -> Result<List<Edit>, OutOfMemory>
    ensures built { IfOk result (λ edits. AreBuilt edits after.now) }
{
    let mut edits = List::new(alloc);
    edits.push(Edit::AppendChildren {
        id: ElementId(0),
        nodes: view(alloc, after)?,
    })?;
    Ok(edits)
}

/// What a rerun of a scope writes, where so many scopes were live before it. What has changed since is
/// kept in `stood`, with None for each scope that was not live.
pub fn written<P: Parts>(
    alloc: Global,
    rows: &Rows<P>,
    stood: &Remembered<Stood<P>>,
    lived: u64,
    scope: u64,
) -> Result<List<Edit>, OutOfMemory>
    ensures written { IfOk result (λ edits.
        AreCaused edits rows.now.table stood.now lived scope) }
{
    let before = Look::before(rows, stood, lived);
    let after = Look::now(rows);
    let found = touched_below(alloc, stood, &before, &after, scope)?;
    match found {
        Some(scopes) => edits_of(alloc, &before, &after, Some(&scopes), scope),
        None => edits_of(alloc, &before, &after, None, scope),
    }
}

// What a rerun of a scope writes in which nothing was refused.
fn edits_of<P: Parts>(
    alloc: Global,
    before: &Look<'_, P>,
    after: &Look<'_, P>,
    touched: Option<&ScopeSet>,
    scope: u64,
) -> Result<List<Edit>, OutOfMemory>
    requires alike { IsAlike before.now after.now }
    ensures { IfOk result (λ edits.
        AreOnWay edits before.now after.now [] touched.entry scope) }
{
    let unit = Unit {
        before: &*before,
        after: &*after,
        way: &[],
        touched,
    };
    let Edited { edits, stopped: _ } = own_written(alloc, &unit, before.scopes(), scope)?;
    Ok(edits)
}

/// What a rerun of a scope wrote before an item of it was refused.
pub fn written_until<P: Parts>(
    alloc: Global,
    before: &Look<'_, P>,
    after: &Look<'_, P>,
    refused: &Item<P>,
    scope: u64,
) -> Result<List<Edit>, OutOfMemory>
    ensures written { IfOk result (λ edits.
        AreCausedUntil edits before.now after.now refused.now scope) }
{
    let way = way_to(alloc, after, refused)?;
    edits_on(alloc, before, after, way.as_slice(), None, scope)
}

fn edits_on<P: Parts>(
    alloc: Global,
    before: &Look<'_, P>,
    after: &Look<'_, P>,
    way: &[Stop],
    touched: Option<&ScopeSet>,
    scope: u64,
) -> Result<List<Edit>, OutOfMemory>
    ensures { IfOk result (λ edits.
        AreOnWay edits before.now after.now (way_of way.now) touched.entry scope) }
{
    let unit = Unit {
        before: &*before,
        after: &*after,
        way,
        touched,
    };
    let Edited { edits, stopped: _ } = written_within(
        alloc,
        &unit,
        before.scopes(),
        scope,
        LEVELS,
    )?;
    Ok(edits)
}
