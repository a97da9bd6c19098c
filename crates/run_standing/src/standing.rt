//! What the scopes that a rerun changes were before it.
ghost use Rattle.std.specs.Prelude.{◌≡◌, [], ℕ, true, is_some, option_map, IfOk, OnOk};
ghost use Rattle.rt_model.specs.Lists.{at};
ghost use Rattle.rt_model.specs.OneLog.{types};
ghost use Rattle.rt_model.specs.State.{empty_side};
ghost use Rattle.rt_model.specs.World.{Application};
ghost use Rattle.run_places.specs.Places.{side_of};
ghost use Rattle.run_records.specs.Records.{number_of};
ghost use Rattle.run_state.specs.Mirror.{scopes_of, state_of};
ghost use Rattle.run_shown.specs.Look as looks;
ghost use Rattle.run_shown.specs.Stands.{Stands};
ghost use Rattle.run_state.specs.Names.{work_of};
ghost use Rattle.run_work.specs.Items.{item_of};
ghost use Rattle.run_standing.specs.Changes.{AllKept, KeepsFor, changes_of, unless};
ghost use Rattle.rt_scopes.specs.Knowing.{leaf_of};
ghost use Rattle.run_standing.specs.Feeds.{fed_changes, feeds, leaf_changes};

use rt_values::{Boxed, OutOfMemory, ScopeId};
use run_places::Side;
use run_records::Scope;
use run_shown::{OtherSides, Remembered, Stood};
use run_state::{State, Work};
use run_work::Item;
use std::alloc::Global;
use tree_nodes::Parts;

/// The number of a parent.
fn number_of(parent: Option<ScopeId>) -> Option<u64>
    ensures { result ≡ number_of parent }
{
    match parent {
        Some(parent) => Some(parent.0),
        None => None,
    }
}

/// What shows of a scope, as it stands.
fn standing<P: Parts>(alloc: Global, scope: &Scope<P>) -> Result<Stood<P>, OutOfMemory>
    ensures { IfOk result (λ stood.
        looks.sight_in stood ≡ looks.sight_in (looks.standing scope.now)) }
{
    let other_sides = others_standing(alloc, &scope.rest.children_side, &scope.rest.fallback_side)?;
    let main_side = scope.rest.main_side.copy(alloc)?;
    Ok(Stood {
        parent: number_of(scope.row.parent),
        height: scope.rest.height as u64,
        below: scope.rest.below,
        shows: scope.rest.shows,
        main_side,
        other_sides,
    })
}

/// The sides beside the main one, as they stand. Where nothing is on either, one empty side is made.
fn others_standing<P: Parts>(
    alloc: Global,
    children: &Side<P>,
    fallback: &Side<P>,
) -> Result<OtherSides<P>, OutOfMemory>
    ensures children { IfOk result (λ sides.
        side_of (looks.children_in sides) ≡ side_of children.now) }
    ensures fallback { IfOk result (λ sides.
        side_of (looks.fallback_in sides) ≡ side_of fallback.now) }
{
    if are_clear(children, fallback) {
        return Ok(OtherSides::Bare(Side::empty(alloc)));
    }
    let children = children.copy(alloc)?;
    let fallback = fallback.copy(alloc)?;
    Ok(OtherSides::Two(Boxed::new(alloc, (children, fallback))?))
}

/// Whether nothing is on either side.
fn are_clear<P: Parts>(children: &Side<P>, fallback: &Side<P>) -> bool
    ensures children { result ≡ true → side_of children.now ≡ empty_side }
    ensures fallback { result ≡ true → side_of fallback.now ≡ empty_side }
{
    if !is_clear(children) {
        return false;
    }
    is_clear(fallback)
}

/// Whether nothing is on a side.
fn is_clear<P: Parts>(side: &Side<P>) -> bool
    ensures { result ≡ true → side_of side.now ≡ empty_side }
{
    match &side.output {
        Some(_) => false,
        None => draws_none(side),
    }
}

/// Whether a side has no number and no child.
fn draws_none<P: Parts>(side: &Side<P>) -> bool
    ensures numbers { result ≡ true → side.now.numbers ≡ [] }
    ensures children { result ≡ true → side.now.children ≡ [] }
{
    match side.numbers.as_slice() {
        [] => matches!(side.children.as_slice(), []),
        _ => false,
    }
}

/// What shows of a scope now, none where it isn't live.
fn shown_now<P: Parts>(
    alloc: Global,
    state: &State<P>,
    scope: u64,
) -> Result<Option<Stood<P>>, OutOfMemory>
    ensures { IfOk result (λ stood.
        option_map looks.sight_in stood
        ≡ option_map looks.sight_of (at (scopes_of state.now.rows.table) scope)) }
{
    match state.scope(scope) {
        Some(found) => Ok(Some(standing(alloc, found)?)),
        None => Ok(None),
    }
}

/// Keeps what shows of a scope, unless it is kept what it was.
pub(crate) fn keep<P: Parts>(
    alloc: Global,
    state: &State<P>,
    scope: u64,
    stood: &mut Remembered<Stood<P>>,
) -> Result<(), OutOfMemory>
    ensures kept { OnOk result (is_some (at stood.new scope) ≡ true) }
    ensures others { OnOk result ((other : ℕ) →
        is_some (at stood.old other) ≡ true → is_some (at stood.new other) ≡ true) }
    ensures stands { OnOk result ((was : _) →
        Stands stood.old was (scopes_of state.now.rows.table) →
        Stands stood.new was (scopes_of state.now.rows.table)) }
{
    if stood.has(scope) {
        return Ok(());
    }
    let shown = shown_now(alloc, state, scope)?;
    stood.push(alloc, scope, shown)
}

/// Keeps what shows of the scopes that a turn at an item may change, where these are the child that it
/// feeds and the scope that goes.
pub(crate) fn keep_for<P: Parts>(
    alloc: Global,
    state: &State<P>,
    item: &Item<P>,
    fed: Option<(u64, bool)>,
    leaf: Option<u64>,
    stood: &mut Remembered<Stood<P>>,
) -> Result<(), OutOfMemory>
    ensures kept { OnOk result ((app : Application
        (types P.Component P.Props P.Value P.Handler P.TaskState P.Effect P.Payload)) (g : _) →
        fed ≡ feeds app (state_of g state.now) (item_of item.now) →
        leaf ≡ leaf_of (state_of g state.now) (item_of item.now) →
        AllKept stood.new (changes_of app (state_of g state.now) (item_of item.now))) }
    ensures stands { OnOk result ((was : _) →
        Stands stood.old was (scopes_of state.now.rows.table) →
        Stands stood.new was (scopes_of state.now.rows.table)) }
{
    match item {
        Item::Draw { scope, .. } => keep(alloc, state, *scope, stood),
        Item::Row { boundary, .. } => keep(alloc, state, *boundary, stood),
        Item::Feed { .. } => keep_fed(alloc, state, fed, stood),
        Item::Make { scope, .. } => {
            keep(alloc, state, *scope, stood)?;
            keep(alloc, state, state.next_scope, stood)
        }
        Item::Drop { .. } => keep_leaf(alloc, state, leaf, stood),
    }
}

/// Keeps what shows of a scope that goes, where there is one.
fn keep_leaf<P: Parts>(
    alloc: Global,
    state: &State<P>,
    leaf: Option<u64>,
    stood: &mut Remembered<Stood<P>>,
) -> Result<(), OutOfMemory>
    ensures kept { OnOk result (AllKept stood.new (leaf_changes leaf)) }
    ensures stands { OnOk result ((was : _) →
        Stands stood.old was (scopes_of state.now.rows.table) →
        Stands stood.new was (scopes_of state.now.rows.table)) }
{
    match leaf {
        Some(leaf) => keep(alloc, state, leaf, stood),
        None => Ok(()),
    }
}

/// Keeps what shows of a scope that is fed, where there is one. One that keeps its output shows what
/// it did.
fn keep_fed<P: Parts>(
    alloc: Global,
    state: &State<P>,
    fed: Option<(u64, bool)>,
    stood: &mut Remembered<Stood<P>>,
) -> Result<(), OutOfMemory>
    ensures kept { OnOk result (AllKept stood.new (fed_changes fed)) }
    ensures stands { OnOk result ((was : _) →
        Stands stood.old was (scopes_of state.now.rows.table) →
        Stands stood.new was (scopes_of state.now.rows.table)) }
{
    match fed {
        Some(fed) => keep_run(alloc, state, fed.1, fed.0, stood),
        None => Ok(()),
    }
}

/// Keeps what shows of a scope, unless it keeps its output.
fn keep_run<P: Parts>(
    alloc: Global,
    state: &State<P>,
    kept: bool,
    child: u64,
    stood: &mut Remembered<Stood<P>>,
) -> Result<(), OutOfMemory>
    ensures kept { OnOk result (AllKept stood.new (unless kept child)) }
    ensures stands { OnOk result ((was : _) →
        Stands stood.old was (scopes_of state.now.rows.table) →
        Stands stood.new was (scopes_of state.now.rows.table)) }
{
    if kept {
        return Ok(());
    }
    keep(alloc, state, child, stood)
}

/// Keeps it where the scopes before and after are compared.
pub fn keep_where<P: Parts>(
    compared: bool,
    alloc: Global,
    state: &State<P>,
    item: &Item<P>,
    fed: Option<(u64, bool)>,
    leaf: Option<u64>,
    stood: &mut Remembered<Stood<P>>,
) -> Result<(), OutOfMemory>
    ensures kept { OnOk result (compared ≡ true → (app : Application
        (types P.Component P.Props P.Value P.Handler P.TaskState P.Effect P.Payload)) (g : _) →
        fed ≡ feeds app (state_of g state.now) (item_of item.now) →
        leaf ≡ leaf_of (state_of g state.now) (item_of item.now) →
        AllKept stood.new (changes_of app (state_of g state.now) (item_of item.now))) }
    ensures stands { OnOk result ((was : _) →
        Stands stood.old was (scopes_of state.now.rows.table) →
        Stands stood.new was (scopes_of state.now.rows.table)) }
{
    if compared {
        keep_for(alloc, state, item, fed, leaf, stood)
    } else {
        Ok(())
    }
}

/// Keeps nothing but what a unit begins with: of a rerun what its own scope is.
pub fn first_kept<P: Parts>(
    alloc: Global,
    state: &State<P>,
    work: Work,
    stood: &mut Remembered<Stood<P>>,
) -> Result<(), OutOfMemory>
    ensures { OnOk result (KeepsFor (work_of work) stood.new
        (scopes_of state.now.rows.table)) }
{
    stood.clear();
    match work {
        Work::RerunScope(scope) => keep(alloc, state, scope, stood)?,
        Work::PollTask(_) => {}
        Work::RunEffects(_) => {}
    }
    Ok(())
}
