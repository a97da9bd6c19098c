//! The scopes that a unit may have changed, with those above them.

ghost use Rattle.std.specs.Prelude.{◌≡◌, ◌∷◌, [], true, IfOk, IfSome};
ghost use Rattle.run_shown.specs.Touched.{Covers, Reaches, is_touched};

use crate::look::{Look, Stood};
use crate::remembered::{Held, Remembered};
use crate::scope_set::ScopeSet;
use rt_values::{Boxed, OutOfMemory};
use std::alloc::Global;
use tree_nodes::Parts;

/// The scopes of which it is kept what they were, with all that stand above them. None where that
/// can't be told, and where the scope showed no child: then none below it is asked for.
pub(crate) fn touched_below<P: Parts>(
    alloc: Global,
    stood: &Remembered<Stood<P>>,
    before: &Look<'_, P>,
    after: &Look<'_, P>,
    scope: u64,
) -> Result<Option<ScopeSet>, OutOfMemory>
    ensures { IfOk result (λ found. IfSome found (λ scopes. Covers scopes stood.now after.now)) }
{
    if stands_alone(before, scope) {
        return Ok(None);
    }
    all_touched(alloc, stood, after)
}

// Whether a scope shows no child.
fn stands_alone<P: Parts>(look: &Look<'_, P>, scope: u64) -> bool {
    match look.shown_side(scope) {
        Some(side) => side.children.as_slice().is_empty(),
        None => true,
    }
}

// The scopes of which it is kept what they were, with all that stand above them. None where that can't
// be told.
fn all_touched<P: Parts>(
    alloc: Global,
    stood: &Remembered<Stood<P>>,
    after: &Look<'_, P>,
) -> Result<Option<ScopeSet>, OutOfMemory>
    ensures { IfOk result (λ found. IfSome found (λ scopes. Covers scopes stood.now after.now)) }
{
    match stood.held() {
        Held::None => Ok(Some(ScopeSet::new(alloc))),
        Held::One(row) => one_touched(alloc, row, after),
        Held::Many(rows) => rows_touched(alloc, rows.as_slice(), after),
    }
}

// The scope of a row, with all that stand above it. None where that can't be told.
fn one_touched<P: Parts>(
    alloc: Global,
    row: &(u64, Option<Stood<P>>),
    after: &Look<'_, P>,
) -> Result<Option<ScopeSet>, OutOfMemory>
    ensures { IfOk result (λ found. IfSome found (λ scopes.
        Covers scopes (row.now ∷ []) after.now)) }
{
    let mut scopes = ScopeSet::new(alloc);
    let reached = reach(after, row.0, &mut scopes)?;
    if !reached {
        return Ok(None);
    }
    Ok(Some(scopes))
}

// The scopes of rows, with all that stand above them. None where that can't be told.
fn rows_touched<P: Parts>(
    alloc: Global,
    stood: &[(u64, Option<Boxed<Stood<P>>>)],
    after: &Look<'_, P>,
) -> Result<Option<ScopeSet>, OutOfMemory>
    ensures { IfOk result (λ found. IfSome found (λ scopes. Covers scopes stood.now after.now)) }
{
    let mut scopes = ScopeSet::new(alloc);
    for entry in stood {
        let reached = reach(after, entry.0, &mut scopes)?;
        if !reached {
            return Ok(None);
        }
    }
    Ok(Some(scopes))
}

/// Puts in a scope and those above it, up to one that is in already. False where the way up has no
/// end.
pub(crate) fn reach<P: Parts>(
    look: &Look<'_, P>,
    scope: u64,
    scopes: &mut ScopeSet,
) -> Result<bool, OutOfMemory>
    ensures { IfOk result (λ all. all ≡ true →
        Reaches scopes.old scopes.new look.now scope) }
{
    let mut next = scope;
    for _step in 0..look.scopes() {
        let fresh = scopes.put(next)?;
        if !fresh {
            return Ok(true);
        }
        let Some(parent) = look.parent(next) else {
            return Ok(true);
        };
        next = parent;
    }
    Ok(false)
}

/// Whether a scope is among those that a unit may have changed, or stands above one. All are where
/// that can't be told.
pub(crate) fn is_touched(touched: Option<&ScopeSet>, scope: u64) -> bool
    ensures { result ≡ is_touched touched.entry scope }
{
    match touched {
        Some(scopes) => scopes.has(scope),
        None => true,
    }
}
