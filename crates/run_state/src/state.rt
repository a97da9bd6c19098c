//! The state of a runtime.
ghost use Rattle.std.specs.Prelude.{◌≡◌, ◌+◌, ◌++◌, ◌∷◌, [], Some, true, OnOk, is_some, option_map};
ghost use Rattle.run_state.specs.Heights.{heights_of, task_scopes};
ghost use Rattle.run_state.specs.Effects.{AreListed, IsListed};
ghost use Rattle.run_state.specs.Readers.{AreHeard, AreKnown};
ghost use Rattle.run_state.specs.Mounts.{IsWaiting, is_above, ways_of};
ghost use Rattle.std.specs.Option.{option_copied};
ghost use Rattle.std.specs.Fn.{FnOnceReturnsAtMut};
ghost use Rattle.rt_model.specs.Lists.{at};
ghost use Rattle.rt_model.specs.State as model;
ghost use Rattle.rt_model.specs.State.{is_live, change, new_scope, world_of};
ghost use Rattle.tree_mirror.specs.Sealed.{component_of};
ghost use Rattle.run_places.specs.Places.{side_name_of};
ghost use Rattle.run_records.specs.Kept.{each, scope_of};
ghost use Rattle.run_named.specs.Standings.{IsPlaced};
ghost use Rattle.rt_model.specs.Replay.{first_state};
ghost use Rattle.run_records.specs.Records as calls;
ghost use Rattle.run_records.specs.Records.{firsts_of};
ghost use Rattle.run_records.specs.Enter as entry;

use crate::entering::{Coming, enter_row};
use crate::held::next_number;
use crate::mounting::uncover;
use crate::names::TaskKind;
use crate::ranks::Ranks;
use crate::read_order::ReadOrder;
use rt_cells::Cells;
use rt_values::{List, OutOfMemory, ScopeId, Task};
use run_owed::Owed;
use run_places::SideName;
use run_records::{Firsts, Rows, Scope, World};
use run_table::{Shelf, Table};
use std::alloc::Global;
use std::snapshot::Snapshot;
use tree_nodes::{Parts, Place, RootProps, VComponent};

/// A task that hasn't ended.
#[derive(Drop)]
pub struct TaskRow<P: Parts> {
    /// It ends with this scope.
    pub scope: u64,
    /// The task that was polled when it was spawned.
    pub parent: Option<u64>,
    /// None while it is polled.
    pub state: Option<P::TaskState>,
    /// The state that stands for it while it is polled. Contracts alone read it.
    pub(crate) was: Snapshot<P::TaskState>,
    /// A paused task isn't polled.
    pub active: bool,
    pub kind: TaskKind,
}

/// All that is kept between two calls of an application. Each part is by number.
#[derive(Drop)]
pub struct State<P: Parts> {
    pub rows: Rows<P>,
    /// The cells, the reactive contexts, and what each scope and each of these reads.
    pub cells: Cells<P::Value>,
    /// In which order it was read into reactive contexts. Contracts alone read it.
    pub read_order: ReadOrder,
    pub tasks: Table<TaskRow<P>>,
    /// Marks and wakes that aren't looked at yet, the marked scopes and the woken tasks as the last
    /// look left them. Each live scope and task has its place there from its making on.
    pub owed: Owed,
    /// The boundaries that turned to their children.
    pub resolved: List<u64>,
    /// The scopes that a suspended render passed over.
    pub skipped: List<ScopeId>,
    /// Above the numbers of all live scopes and of their parents.
    pub next_scope: u64,
    /// The numbers that calls draw next, and the next node of the document.
    pub next: Firsts,
    /// Where each number of the document stands that a live scope has, by number.
    pub places: Shelf<Place>,
    /// The scopes that aren't mounted and may show: those that were made since the last mounting,
    /// and those below a boundary that turned since.
    pub fresh: List<u64>,
    /// The other scopes that aren't mounted, each after the number of a scope above that hides it.
    pub hidden: Ranks,
    /// The same pairs by the hidden scope, which find them as it goes.
    pub hiders: Ranks,
    /// The live scopes that have queued effects, each with its height, and maybe others.
    pub effects: Ranks,
    /// Each task with each live scope that it holds, and maybe other pairs.
    pub held: Ranks,
    /// The live scopes are those that are entered, with their heights.
    pub ghost entered: { heights_of rows.table ≡ owed.scopes },
    /// The tasks that haven't ended are those that are entered, with their scopes.
    pub ghost known: { task_scopes tasks ≡ owed.tasks },
    /// No two scopes have one number, and each that isn't mounted is fresh or hidden.
    pub ghost waiting: { ∥ IsWaiting (ways_of rows.table) fresh hidden next_scope ∥₁ },
    /// The places are those of all that is drawn for the sides of live scopes.
    pub ghost placed: { ∥ IsPlaced (each scope_of rows.table) places ∥₁ },
    /// The cells know each live scope as a reader of just what it has read last.
    pub ghost readers: { AreKnown (each scope_of rows.table) cells.reads },
    /// And each reactive context as a reader of just what was read into it.
    pub ghost heard: { AreHeard cells.contexts read_order cells.reads },
    /// Each live scope that has queued effects is listed, and paired with each task that holds it.
    pub ghost listed: { AreListed (each scope_of rows.table) effects held },
}

impl<P: Parts> State<P> {
    ghost use Rattle.run_state.specs.Starts.{IsEmpty};
    ghost use Rattle.run_state.specs.Mirror.{ScopeChange, ScopeRevision, at_first, scopes_of, state_of};
    ghost use Rattle.run_state.specs.Drawn.{beside_lists, kept_for, turned_for};

    /// Nothing is kept. The counters begin at these numbers.
    pub fn empty(alloc: Global, firsts: Firsts) -> State<P>
        ensures { IsEmpty firsts result }
    {
        State {
            rows: Rows::new(alloc),
            cells: Cells::new(alloc, firsts.cells, firsts.contexts),
            read_order: ReadOrder::new(),
            tasks: Table::new(alloc),
            owed: Owed::new(alloc),
            resolved: List::new(alloc),
            skipped: List::new(alloc),
            next_scope: 0,
            next: firsts,
            places: Shelf::new(alloc),
            fresh: List::new(alloc),
            hidden: Ranks::new(alloc),
            hiders: Ranks::new(alloc),
            effects: Ranks::new(alloc),
            held: Ranks::new(alloc),
        }
    }

    /// Makes scope 0, the wrapper round this root, not yet run, where nothing is kept.
    pub fn add_root(
        &mut self,
        alloc: Global,
        root: P::Component,
        props: P::Props,
    ) -> Result<(), OutOfMemory>
        ensures { (firsts : _) → IsEmpty firsts self.old → OnOk result
            (state_of at_first self.new ≡ first_state root props (firsts_of firsts)) }
    {
        let Some(next) = next_number(self.next_scope) else {
            return Err(OutOfMemory);
        };
        let coming = Coming {
            component: VComponent::Root(RootProps {
                component: root,
                props,
            }),
            parent: None,
            height: 0,
            below: SideName::Main,
        };
        self.push_scope(alloc, next, coming)?;
        Ok(())
    }

    /// Makes a scope under the next number, not yet run, after the others. It is told the number after
    /// that, and the scope's parent has a number below it.
    pub(crate) fn push_scope(
        &mut self,
        alloc: Global,
        next: u64,
        coming: Coming<P>,
    ) -> Result<(), OutOfMemory>
        requires next { next ≡ self.old.next_scope + 1 }
        requires above { is_above self.old.next_scope coming.parent ≡ true }
        ensures { OnOk result ((g : _) → state_of g self.new ≡ record (state_of g self.old) {
          scopes = (state_of g self.old).scopes ++ (
            self.old.next_scope,
            new_scope (component_of coming.component) coming.parent coming.height (side_name_of coming.below),
          ) ∷ [];
          next_scope = next;
        }) }
    {
        let number = self.next_scope;
        enter_row(
            alloc,
            &mut self.owed,
            &mut self.rows.table,
            &mut self.fresh,
            number,
            coming,
        )?;
        self.next_scope = next;
        Ok(())
    }

    /// What a call can look at now, in whatever scope.
    pub fn world(&self, task: Option<Task>, rendering: bool) -> World<'_, P>
        ensures { (g : _) (scope : _) →
            calls.world_of (entry.world_of result scope)
            ≡ world_of (state_of g self.now) scope.0 (option_map (λ t. t.0) task) rendering }
    {
        World {
            rows: &self.rows,
            cells: &self.cells,
            next: self.next,
            task,
            rendering,
        }
    }

    /// All that is kept of a live scope.
    pub fn scope(&self, scope: u64) -> Option<&Scope<P>>
        ensures { option_copied result ≡ at self.now.rows.table scope }
    {
        self.rows.table.get(scope)
    }

    /// Whether a scope stands.
    #[tactic(auto, using(crate::proofs::Each::eaches))]
    pub fn is_live(&self, scope: u64) -> bool
        ensures { (g : _) → result ≡ is_live (state_of g self.now) scope }
    {
        self.rows.table.get(scope).is_some()
    }

    /// Whether a task hasn't ended.
    #[tactic(auto, using(crate::proofs::Each::eaches))]
    pub fn has_task(&self, task: u64) -> bool
        ensures { (g : _) → result ≡ is_some (at (state_of g self.now).tasks task) }
    {
        self.tasks.get(task).is_some()
    }

    /// Changes what is kept of a scope, where it is live.
    pub(crate) fn change_scope<F: FnOnce(&mut Scope<P>) -> Result<(), OutOfMemory>>(
        &mut self,
        scope: u64,
        apply: F,
    ) -> Result<(), OutOfMemory>
        requires callable { F.IsAlwaysCallable apply }
        requires stay { (x y : Scope P P.Component P.Props P.Value P.Handler P.TaskState P.Effect P.Payload) (done : _)
            → FnOnceReturnsAtMut F.FnOnce apply x done y → kept_for y ≡ kept_for x }
        ensures { (k : ScopeChange P P.Component P.Props P.Value P.Handler P.TaskState P.Effect P.Payload)
            → ((x y : Scope P P.Component P.Props P.Value P.Handler P.TaskState P.Effect P.Payload)
            → FnOnceReturnsAtMut F.FnOnce apply x result y → OnOk result (y ≡ k.code x))
            → OnOk result ((g : _) → state_of g self.new ≡ change (state_of g self.old) scope k.model) }
    {
        self.rows.table.change(scope, apply)
    }

    /// Changes what is kept of a scope, where it is live, by what leaves it listed with its effects and
    /// holders where it was.
    pub(crate) fn change_listed<F: FnOnce(&mut Scope<P>) -> Result<(), OutOfMemory>>(
        &mut self,
        scope: u64,
        apply: F,
    ) -> Result<(), OutOfMemory>
        requires callable { F.IsAlwaysCallable apply }
        requires listed { (x y : Scope P P.Component P.Props P.Value P.Handler P.TaskState P.Effect P.Payload) (done : _)
            → at self.old.rows.table scope ≡ Some x → FnOnceReturnsAtMut F.FnOnce apply x done y
            → IsListed self.old.effects self.old.held scope (scope_of x)
            → IsListed self.old.effects self.old.held scope (scope_of y) }
        requires stay { (x y : Scope P P.Component P.Props P.Value P.Handler P.TaskState P.Effect P.Payload) (done : _)
            → FnOnceReturnsAtMut F.FnOnce apply x done y → beside_lists y ≡ beside_lists x }
        ensures changed { (k : ScopeChange P P.Component P.Props P.Value P.Handler P.TaskState P.Effect P.Payload)
            → ((x y : Scope P P.Component P.Props P.Value P.Handler P.TaskState P.Effect P.Payload)
            → FnOnceReturnsAtMut F.FnOnce apply x result y → OnOk result (y ≡ k.code x))
            → OnOk result ((g : _) → state_of g self.new ≡ change (state_of g self.old) scope k.model) }
        ensures effects { self.new.effects ≡ self.old.effects }
        ensures held { self.new.held ≡ self.old.held }
    {
        self.rows.table.change(scope, apply)
    }

    /// Changes what is kept of a scope, where it is live, of which another side may show then. What
    /// it hides is fresh.
    pub(crate) fn turn_scope<F: FnOnce(&mut Scope<P>) -> Result<(), OutOfMemory>>(
        &mut self,
        scope: u64,
        apply: F,
    ) -> Result<(), OutOfMemory>
        requires callable { F.IsAlwaysCallable apply }
        requires stay { (x y : Scope P P.Component P.Props P.Value P.Handler P.TaskState P.Effect P.Payload) (done : _)
            → FnOnceReturnsAtMut F.FnOnce apply x done y → turned_for y ≡ turned_for x }
        ensures { (k : ScopeChange P P.Component P.Props P.Value P.Handler P.TaskState P.Effect P.Payload)
            → ((x y : Scope P P.Component P.Props P.Value P.Handler P.TaskState P.Effect P.Payload)
            → FnOnceReturnsAtMut F.FnOnce apply x result y → OnOk result (y ≡ k.code x))
            → OnOk result ((g : _) → state_of g self.new ≡ change (state_of g self.old) scope k.model) }
    {
        uncover(&mut self.fresh, &mut self.hidden, &mut self.hiders, scope)?;
        self.rows.table.change(scope, apply)
    }

    /// Changes what is kept of a scope, where it is live, by what that is in the model.
    pub(crate) fn revise_scope<F: FnOnce(&mut Scope<P>) -> Result<(), OutOfMemory>>(
        &mut self,
        scope: u64,
        apply: F,
    ) -> Result<(), OutOfMemory>
        requires callable { F.IsAlwaysCallable apply }
        requires stay { (x y : Scope P P.Component P.Props P.Value P.Handler P.TaskState P.Effect P.Payload) (done : _)
            → FnOnceReturnsAtMut F.FnOnce apply x done y → kept_for y ≡ kept_for x }
        ensures { (revised : ScopeRevision P.Component P.Props P.Value P.Handler P.TaskState P.Effect P.Payload)
            → ((x y : Scope P P.Component P.Props P.Value P.Handler P.TaskState P.Effect P.Payload)
            → FnOnceReturnsAtMut F.FnOnce apply x result y → OnOk result (scope_of y ≡ revised (scope_of x)))
            → OnOk result ((g : _) → state_of g self.new
            ≡ change (state_of g self.old) scope revised) }
    {
        self.rows.table.change(scope, apply)
    }
}
