//! A turn at open work.
ghost use Rattle.std.specs.Prelude.{◌≡◌, ◌∷◌, ℕ, [], None, Some, IfOk, IfErr, OnOk};
ghost use Rattle.rt_model.specs.State as model;
ghost use Rattle.rt_model.specs.Removal as removal;
ghost use Rattle.rt_model.specs.Replay as replay;
ghost use Rattle.run_places.specs.Places.{side_name_of};
ghost use Rattle.run_reports.specs.Seen.{limits_of};
ghost use Rattle.rt_scopes.specs.Knowing.{GoesWhere, Knows, leaf_of};
ghost use Rattle.rt_scopes.specs.Outcomes.{StateComes};
ghost use Rattle.run_state.specs.Mirror.{state_of};
ghost use Rattle.law_moves.specs.Turn.{entries_at, turn_of};
ghost use Rattle.run_work.specs.Items.{item_of, work_of};
ghost use Rattle.run_outside.specs.Ends.{Explains};
ghost use Rattle.run_standing.specs.Feeds.{feeds};
ghost use Rattle.run_turns.specs.Counting.{CountsChange};
ghost use Rattle.run_turns.specs.Notes.{NotedBy};
ghost use Rattle.run_machine.specs.Machines.{KeepsLow, KeepsOn, Serves, ServesLow};

use crate::machine::{Machine, stack};
use author_calls::{App, Calls};
use rt_boundary::boundary_step;
use rt_scopes::{Known, Scopes, next_removed};
use rt_values::{List, OutOfMemory};
use run_outside::Ended;
use run_places::SideName;
use run_reports::Limits;
use run_standing::{fed_by, keep_where};
use run_state::{State, Stop};
use run_turns::{Course, draw, feed, make, take, too_deep};
use run_work::Item;
use std::alloc::Global;
use tree_nodes::Parts;

/// The scope that goes in a turn at an item. Nothing stays known but for a drop.
fn leaf_for<P: Parts>(
    alloc: Global,
    state: &State<P>,
    item: &Item<P>,
    known: &mut Known,
) -> Result<Option<u64>, OutOfMemory>
    requires knows { (g : _) → Knows (state_of g state.now) known.old.rows.items }
    ensures leaf { IfOk result (λ leaf. (g : _) →
        leaf ≡ leaf_of (state_of g state.now) (item_of item.now)) }
    ensures goes { IfOk result (λ leaf. (g : _) →
        GoesWhere (state_of g state.now) known.new.rows.items leaf) }
{
    match item {
        Item::Drop { child, .. } => {
            let leaf = next_removed(alloc, state, *child, known)?;
            Ok(Some(leaf))
        }
        Item::Draw { .. } => Ok(nothing_known(known)),
        Item::Row { .. } => Ok(nothing_known(known)),
        Item::Feed { .. } => Ok(nothing_known(known)),
        Item::Make { .. } => Ok(nothing_known(known)),
    }
}

/// Nothing stays known, and no scope goes.
fn nothing_known(known: &mut Known) -> Option<u64>
    ensures none { result ≡ None }
    ensures empty { known.new.rows.items ≡ [] }
{
    known.clear();
    None
}

/// Removes the first scope of those that go with a child, which there is.
fn take_first<A: App>(
    scopes: &mut Scopes<A>,
    app: &A,
    calls: &mut Calls,
    course: &mut Course,
    leaf: Option<u64>,
    child: u64,
    scope: u64,
    side: SideName,
) -> Result<List<Item<A>>, Stop>
    requires leaf { (g : _) → leaf ≡ Some (removal.next_removed (state_of g scopes.old.state) child) }
    ensures turned { StateComes (λ w. turn_of (A.meaning app.now) w
        (model.Drop child scope (side_name_of side)))
        scopes.old.state scopes.new.state work_of result }
    ensures noted { (g : _) → NotedBy course.old.entries course.new.entries
        (replay.Removed (removal.next_removed (state_of g scopes.old.state) child) ∷ []) result }
    ensures counted { OnOk result (CountsChange (λ w. turn_of (A.meaning app.now) w
        (model.Drop child scope (side_name_of side)))
        scopes.old.state calls.old calls.new) }
{
    match leaf {
        Some(leaf) => take(scopes, app, calls, course, leaf, child, scope, side),
        None => Err(Stop::OutOfMemory),
    }
}

/// One turn at an item of open work: it is served, and of a drop one scope goes. The work that it
/// leads to, where these are the child that it feeds and the scope that goes.
fn turn_at<A: App>(
    scopes: &mut Scopes<A>,
    app: &A,
    calls: &mut Calls,
    course: &mut Course,
    item: &Item<A>,
    fed: Option<(u64, bool)>,
    leaf: Option<u64>,
) -> Result<List<Item<A>>, Stop>
    requires fed { (g : _) →
        fed ≡ feeds (A.meaning app.now) (state_of g scopes.old.state) (item_of item.now) }
    requires leaf { (g : _) → leaf ≡ leaf_of (state_of g scopes.old.state) (item_of item.now) }
    ensures turned { StateComes (λ w. turn_of (A.meaning app.now) w (item_of item.now))
        scopes.old.state scopes.new.state work_of result }
    ensures noted { (g : _) → NotedBy course.old.entries course.new.entries
        (entries_at (A.meaning app.now) (state_of g scopes.old.state) (item_of item.now))
        result }
    ensures counted { OnOk result (CountsChange
        (λ w. turn_of (A.meaning app.now) w (item_of item.now))
        scopes.old.state calls.old calls.new) }
{
    match item {
        Item::Draw {
            scope,
            side,
            place,
            kind,
        } => draw(scopes, *scope, *side, place, *kind),
        Item::Row { boundary, step } => boundary_step(scopes, app, calls, *boundary, *step),
        Item::Feed { component, .. } => feed(scopes, app, calls, course, fed, component),
        Item::Make {
            scope,
            side,
            place,
            component,
        } => make(scopes, app, calls, course, *scope, *side, place, component),
        Item::Drop { child, scope, side } => take_first(
            scopes, app, calls, course, leaf, *child, *scope, *side,
        ),
    }
}

impl<A: App> Machine<A> {
    /// Serves an item of open work. A scope that would stand too high isn't made.
    pub(crate) fn serve(
        &mut self,
        app: &A,
        calls: &mut Calls,
        item: &Item<A>,
        limits: Limits,
        known: &mut Known,
    ) -> Result<(), Ended>
        requires knows { (g : _) →
            Knows (state_of g self.old.scopes.state) known.old.rows.items }
        ensures explains { IfErr result (λ ended. (before after : ℕ) → Explains limits before after ended) }
        ensures serves { Serves (A.meaning app.now) (limits_of limits)
            (item_of item.now) self.old self.new result }
        ensures counted { OnOk result (CountsChange
            (λ w. turn_of (A.meaning app.now) w (item_of item.now))
            self.old.scopes.state calls.old calls.new) }
        ensures remembers { KeepsOn self.old self.new result }
        ensures others { self.new ≡ record self.old {
          scopes = self.new.scopes;
          work = self.new.work;
          stood = self.new.stood;
          course = self.new.course;
        } }
        ensures knows { OnOk result ((g : _) →
            Knows (state_of g self.new.scopes.state) known.new.rows.items) }
    {
        match too_deep(&self.scopes.state, item, limits)? {
            Some(height) => Err(Ended::TooDeep { height }),
            None => Ok(self.serve_low(app, calls, item, known)?),
        }
    }

    /// Serves an item of open work, at any height.
    fn serve_low(
        &mut self,
        app: &A,
        calls: &mut Calls,
        item: &Item<A>,
        known: &mut Known,
    ) -> Result<(), Stop>
        requires knows { (g : _) →
            Knows (state_of g self.old.scopes.state) known.old.rows.items }
        ensures serves { ServesLow (A.meaning app.now) (item_of item.now)
            self.old self.new result }
        ensures counted { OnOk result (CountsChange
            (λ w. turn_of (A.meaning app.now) w (item_of item.now))
            self.old.scopes.state calls.old calls.new) }
        ensures remembers { KeepsLow self.old self.new result }
        ensures others { self.new ≡ record self.old {
          scopes = self.new.scopes;
          work = self.new.work;
          stood = self.new.stood;
          course = self.new.course;
        } }
        ensures knows { OnOk result ((g : _) →
            Knows (state_of g self.new.scopes.state) known.new.rows.items) }
    {
        let fed = fed_by(app, &self.scopes.state, item);
        let leaf = leaf_for(self.scopes.alloc, &self.scopes.state, item, known)?;
        keep_where(
            self.is_compared(),
            self.scopes.alloc,
            &self.scopes.state,
            item,
            fed,
            leaf,
            &mut self.stood,
        )?;
        let work = turn_at(
            &mut self.scopes,
            app,
            calls,
            &mut self.course,
            item,
            fed,
            leaf,
        )?;
        Ok(stack(&mut self.work, work)?)
    }
}
