//! Where a number that is looked for stands: which scopes lead to it, and at which place of a side.

ghost use Rattle.std.specs.Prelude.{◌≡◌, ◌≢◌, ◌↔◌, [], nat_eq, IfOk, IfSome, IsTrue};
ghost use Rattle.rt_model.specs.Lists.{has};
ghost use Rattle.run_shown.specs.Leading.{IsHolder, IsOnlyAt, IsWay, KnowSeats, Leads, lone_where, same_spot};
ghost use Rattle.run_shown.specs.Ways.{place_found};

use crate::look::Look;
use crate::scope_set::ScopeSet;
use crate::touching::reach;
use rt_values::OutOfMemory;
use run_places::{Place, Side, Step};
use std::alloc::Global;
use tree_nodes::Parts;

/// A number of the document, and the scopes that lead to it.
#[derive(Drop)]
pub(crate) struct Sought<'a> {
    pub number: u64,
    pub way: &'a ScopeSet,
}

/// What is looked for, with what is left of the way to its place.
#[derive(Drop)]
pub(crate) struct Ahead<'a> {
    pub sought: &'a Sought<'a>,
    /// In the template.
    pub path: &'a [u8],
    /// Below the node with that path.
    pub steps: &'a [Step],
}

/// The scopes that lead to a number: the one that has it, and those above. None where the way up has
/// no end.
pub(crate) fn way_to_number<P: Parts>(
    alloc: Global,
    look: &Look<'_, P>,
    number: u64,
    holder: Option<u64>,
) -> Result<Option<ScopeSet>, OutOfMemory>
    requires holds { IsHolder look.now number holder }
    requires seated { KnowSeats look.now }
    ensures { IfOk result (λ found. IfSome found (λ way. Leads look.now number way)) }
{
    if number == 0 {
        return Ok(None);
    }
    match holder {
        Some(scope) => up_from(alloc, look, scope),
        None => Ok(Some(ScopeSet::new(alloc))),
    }
}

// A scope, with those above it. None where the way up has no end.
fn up_from<P: Parts>(
    alloc: Global,
    look: &Look<'_, P>,
    scope: u64,
) -> Result<Option<ScopeSet>, OutOfMemory>
    ensures { IfOk result (λ found. IfSome found (λ way. IsWay look.now scope way)) }
{
    let mut way = ScopeSet::new(alloc);
    let all = reach(look, scope, &mut way)?;
    if all {
        return Ok(Some(way));
    }
    Ok(None)
}

/// The only place of a side at which the number stands, or a child that leads to it. None where that
/// isn't sure.
pub(crate) fn aim<'a, P: Parts>(side: &'a Side<P>, sought: &Sought<'_>) -> Option<&'a Place>
    requires some { sought.now.number ≢ 0 }
    ensures { IsOnlyAt side.now sought.now (place_found result) }
{
    let Some(node) = lone_with(side.numbers.as_slice(), sought.number) else {
        return None;
    };
    let Some(child) = lone_on(side.children.as_slice(), sought.way) else {
        return None;
    };
    match (node, child) {
        (Some(spot), None) => side.nodes.place_of(spot),
        (None, Some(spot)) => side.seats.place_of(spot),
        _ => None,
    }
}

/// Whether a path ends here.
pub(crate) fn is_end(path: &[u8]) -> bool
    ensures { IsTrue result ↔ (path.now ≡ []) }
{
    path.is_empty()
}

// The only index beside a number, if one is. None where more than one are.
fn lone_with(pairs: &[(u64, u64)], number: u64) -> Option<Option<u64>>
    ensures { result ≡ lone_where (λ m. nat_eq m number) pairs.now }
{
    let mut found = None;
    for pair in pairs {
        if pair.1 == number {
            if !is_same(found, pair.0) {
                return None;
            }
            found = Some(pair.0);
        }
    }
    Some(found)
}

// The only index beside the children that lead to the number, if one is. None where more than one
// are.
fn lone_on(pairs: &[(u64, u64)], way: &ScopeSet) -> Option<Option<u64>>
    ensures { result ≡ lone_where (λ t. has way.now t) pairs.now }
{
    let mut found = None;
    for pair in pairs {
        if way.has(pair.1) {
            if !is_same(found, pair.0) {
                return None;
            }
            found = Some(pair.0);
        }
    }
    Some(found)
}

// Whether an index is the one that was found before, if one was.
fn is_same(found: Option<u64>, index: u64) -> bool
    ensures { result ≡ same_spot found index }
{
    match found {
        Some(spot) => spot == index,
        None => true,
    }
}
