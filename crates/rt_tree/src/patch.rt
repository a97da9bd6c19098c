//! A patch that gives one step at a time. Its plan is what a walk over the old tree and the new one
//! met: each mark is turned once it comes up, by what both blocks have then.

ghost use Rattle.std.specs.Prelude.{◌≡◌, ◌≢◌, ◌↔◌, [], ◌∷◌, ◌++◌, map, Some, ◌+◌, ◌-◌, ◌^◌, IfErr, IfOk, IsTrue, OnOk};
ghost use Rattle.rt_model.specs.OneLog.{types};
ghost use Rattle.rt_model.specs.Tree.{spots};
ghost use Rattle.rt_model.specs.World.{Application};
ghost use Rattle.run_places.specs.Places.{side_of};
ghost use Rattle.tree_marks.specs.Marks.{come};
ghost use Rattle.tree_mirror.specs.Sealed.{tree_of};
ghost use Rattle.rt_tree.specs.Plans.{KeepsOf, PlansOver};
ghost use Rattle.rt_tree.specs.Told.{IfDone, IfDrawn, IfNodes, UnlessDrawn};

use crate::block::Block;
use crate::step::{PatchStep, TreeFault};
use rt_edits::{DocNode, Edit};
use rt_values::{ElementId, List, OutOfMemory, ScopeId, Serials};
use run_met::{Met, Planning};
use run_places::{Nodes, Place, Seats, Side, SideName};
use run_shown::GivenRows;
use run_work::{Patched, walk, walk_both, walk_new};
use std::alloc::Global;
use std::collections::VecDeque;
use std::mem;
use tree_nodes::{Parts, VNode};

/// What a patch waits for.
#[derive(Drop)]
pub(crate) enum Phase {
    /// Nothing.
    Free,
    /// The scope that is made for the component at this place, with its nodes.
    Make(Place),
    /// The present nodes of a scope.
    Asked(ScopeId),
}

/// A patch of one block: a new tree, and what is left to do until it is mounted.
#[derive(Drop)]
pub struct Patch<P: Parts> {
    /// The old block, with its tree if there is one.
    pub(crate) old: Side<P>,
    /// The new one, as far as it is made. It has its tree and what is kept of the old one from the
    /// start.
    pub(crate) new: Block<P>,
    /// Whether there are edits.
    pub(crate) shown: bool,
    /// The marks that are left.
    pub(crate) plan: VecDeque<Met<P>>,
    /// The nodes that were given for child scopes.
    pub(crate) given: GivenRows,
    /// The edits that a mark writes which aren't given yet.
    pub(crate) edits: VecDeque<Edit>,
    pub(crate) drops: VecDeque<ScopeId>,
    pub(crate) gone: VecDeque<ElementId>,
    pub(crate) phase: Phase,
}

impl<P: Parts> Patch<P> {
    ghost use Rattle.rt_tree.specs.Awaits.{IsFor, awaited, awaits, no_answer};
    ghost use Rattle.rt_tree.specs.Counts.{other_in, others};
    ghost use Rattle.rt_tree.specs.Drawing.{DrawsNext};
    ghost use Rattle.rt_tree.specs.Endings.{IsClear};
    ghost use Rattle.rt_tree.specs.Ends.{IsDone};
    ghost use Rattle.rt_tree.specs.Gives.{SeatedBy};
    ghost use Rattle.rt_tree.specs.Served.{FirstAsks, Leaves, Serves, edits_left, marks_left};

    /// The build of a first tree, at its start.
    pub fn build(alloc: Global, node: VNode<P>) -> Result<Patch<P>, OutOfMemory>
        ensures marks { IfOk result (λ patch. marks_left patch
            ≡ map come (spots [] (tree_of node))) }
        ensures none { IfOk result (λ patch. edits_left patch ≡ []) }
        ensures tree { IfOk result (λ patch. patch.new.side.output ≡ Some node) }
        ensures free { IfOk result (λ patch. awaited patch.phase ≡ no_answer) }
        ensures clear { IfOk result (λ patch. IsClear patch) }
    {
        Patch::start(alloc, Side::empty(alloc), node, false)
    }

    /// A patch by which a new tree takes the place of an old block, at its start. Only where the
    /// block is shown are there edits.
    pub fn over(
        alloc: Global,
        old: Block<P>,
        node: VNode<P>,
        shown: bool,
    ) -> Result<Patch<P>, OutOfMemory>
        ensures marks { IfOk result (λ patch.
            PlansOver old.side.output node patch.plan.items) }

        // The new block has what is kept of the old one from the start.
        ensures kept { IfOk result (λ patch. KeepsOf patch.old node patch.new.side) }
        ensures old { IfOk result (λ patch. patch.old ≡ old.side) }
        ensures none { IfOk result (λ patch. edits_left patch ≡ []) }
        ensures shown { IfOk result (λ patch. patch.shown ≡ shown) }
        ensures tree { IfOk result (λ patch. patch.new.side.output ≡ Some node) }
        ensures free { IfOk result (λ patch. awaited patch.phase ≡ no_answer) }
        ensures clear { IfOk result (λ patch. IsClear patch) }
    {
        let Block { side } = old;
        Patch::start(alloc, side, node, shown)
    }

    fn start(
        alloc: Global,
        old: Side<P>,
        tree: VNode<P>,
        shown: bool,
    ) -> Result<Patch<P>, OutOfMemory>
        ensures marks { IfOk result (λ patch. PlansOver old.output tree patch.plan.items) }
        ensures kept { IfOk result (λ patch. KeepsOf old tree patch.new.side) }
        ensures old { IfOk result (λ patch. patch.old ≡ old) }
        ensures none { IfOk result (λ patch. patch.edits.items ≡ []) }
        ensures shown { IfOk result (λ patch. patch.shown ≡ shown) }
        ensures tree { IfOk result (λ patch. patch.new.side.output ≡ Some tree) }
        ensures free { IfOk result (λ patch. patch.phase ≡ Phase.Free) }
        ensures clear { IfOk result (λ patch. IsClear patch) }
    {
        let plan = plan_over(alloc, &old, &tree)?;
        let new = block_for(alloc, &old, tree)?;
        Ok(Patch {
            old,
            new,
            shown,
            plan: VecDeque::from_vec(plan.into_vec()),
            given: GivenRows::none(alloc),
            edits: VecDeque::new(alloc),
            drops: VecDeque::new(alloc),
            gone: VecDeque::new(alloc),
            phase: Phase::Free,
        })
    }

    /// The next step. Numbers of new nodes are drawn from `ids`.
    pub fn next(&mut self, alloc: Global, ids: &mut Serials) -> Result<PatchStep<P>, TreeFault>
        requires free { awaited self.now.phase ≡ no_answer }
        ensures awaits { IfOk result (λ step. awaited self.exit.now.phase ≡ awaits step) }
        ensures tree { self.exit.now.new.side.output ≡ self.entry.now.new.side.output }

        // Marks go by in order, and each writes by what both blocks have when it comes up.
        ensures served { IfOk result (λ step. (app : Application
            (types P.Component P.Props P.Value P.Handler P.TaskState P.Effect P.Payload)) →
            Serves app self.entry.now step self.exit.now) }

        // A scope that is asked is the one that the mark in front asks, which goes by once it has
        // none left to ask. Other steps do what the last mark that goes by leads to.
        ensures asks { IfOk result (λ step. IfNodes step (λ scope. FirstAsks self.exit.now scope)) }
        ensures leaves { IfOk result (λ step. Leaves self.entry.now self.exit.now) }

        // A number is drawn by one kind of step alone, and is the one that comes next.
        ensures drawn { IfOk result (λ step. IfDrawn step (λ id. id.0 ≡ ids.old)) }
        ensures rises { IfOk result (λ step. IfDrawn step (λ id. ids.new ≡ ids.old + 1)) }
        ensures undrawn { IfOk result (λ step. UnlessDrawn step (ids.new ≡ ids.old)) }

        // A fault comes at the end of the numbers exactly where one is drawn next.
        ensures end { IfErr result (λ fault.
            fault ≡ TreeFault.IdsExhausted → ids.old ≡ 2 ^ 64 - 1) }
        ensures draws { IfErr result (λ fault. fault ≡ TreeFault.IdsExhausted → (app : Application
            (types P.Component P.Props P.Value P.Handler P.TaskState P.Effect P.Payload)) →
            DrawsNext app self.entry.now) }
        ensures before_end { OnOk result ((app : Application
            (types P.Component P.Props P.Value P.Handler P.TaskState P.Effect P.Payload)) →
            DrawsNext app self.entry.now → ids.old ≢ 2 ^ 64 - 1) }

        // Each step that is neither an edit nor a question is one fewer of them.
        ensures fewer { IfOk result (λ step.
            others self.entry.now ≡ other_in step + others self.exit.now) }
        ensures done { IfOk result (λ step. IfDone step (IsDone self.exit.now)) }
    {
        if let Some(edit) = self.edits.pop_front() {
            return Ok(PatchStep::Edit(edit));
        }
        while let Some(met) = self.plan.pop_front() {
            if let Some(step) = self.turn(alloc, met, ids)? {
                return Ok(step);
            }
        }
        if let Some(scope) = self.drops.pop_front() {
            return Ok(PatchStep::Remove(scope));
        }
        if let Some(id) = self.gone.pop_front() {
            return Ok(PatchStep::Gone { id });
        }
        Ok(PatchStep::Done)
    }

    /// Takes the scope that was made with its nodes, or the present nodes of the scope that was
    /// named.
    pub fn give(&mut self, scope: ScopeId, nodes: List<DocNode>) -> Result<(), OutOfMemory>
        requires asked { IsFor scope (awaited self.now.phase) }
        ensures awaits { OnOk result (awaited self.exit.now.phase ≡ no_answer) }
        ensures tree { self.exit.now.new.side.output ≡ self.entry.now.new.side.output }

        // The nodes are one row more, a scope that was made has its place, and all else stays.
        ensures rows { OnOk result (self.exit.now.given.rows
            ≡ self.entry.now.given.rows ++ (scope.0, nodes) ∷ []) }
        ensures seated { OnOk result (SeatedBy self.entry.now.phase scope
            (side_of self.entry.now.new.side) (side_of self.exit.now.new.side)) }
        ensures marks { OnOk result (marks_left self.exit.now ≡ marks_left self.entry.now) }
        ensures edits { OnOk result (edits_left self.exit.now ≡ edits_left self.entry.now) }
        ensures old { OnOk result (self.exit.now.old ≡ self.entry.now.old) }
        ensures shown { OnOk result (self.exit.now.shown ≡ self.entry.now.shown) }
        ensures drops { OnOk result (self.exit.now.drops ≡ self.entry.now.drops) }
        ensures gone { OnOk result (self.exit.now.gone ≡ self.entry.now.gone) }
    {
        let phase = mem::replace(&mut self.phase, Phase::Free);
        self.seat(phase, scope)?;
        self.given.put(scope.0, nodes)?;
        Ok(())
    }

    // A scope that was made is the child scope of its component.
    fn seat(&mut self, phase: Phase, scope: ScopeId) -> Result<(), OutOfMemory>
        ensures seated { OnOk result (SeatedBy phase scope (side_of self.entry.now.new.side)
            (side_of self.exit.now.new.side)) }
        ensures others { self.exit.now ≡ record self.entry.now { new = self.exit.now.new } }
        ensures tree { self.exit.now.new.side.output ≡ self.entry.now.new.side.output }
    {
        match phase {
            Phase::Free => Ok(()),
            Phase::Make(place) => self.new.seat(&place, scope.0),
            Phase::Asked(_) => Ok(()),
        }
    }

    /// Whether all steps were done.
    pub fn is_done(&self) -> bool
        ensures done { IsTrue result ↔ IsDone self.now }
    {
        let free = match &self.phase {
            Phase::Free => true,
            Phase::Make(_) => false,
            Phase::Asked(_) => false,
        };
        free && self.edits.is_empty()
            && self.plan.is_empty()
            && self.drops.is_empty()
            && self.gone.is_empty()
    }

    /// The mounted tree, once all steps were done.
    pub fn finish(self) -> Block<P>
        ensures block { result ≡ self.new }
    {
        let Patch { new, .. } = self;
        new
    }
}

// What a walk over the old tree, if there is one, and the new one meets.
fn plan_over<P: Parts>(
    alloc: Global,
    old: &Side<P>,
    tree: &VNode<P>,
) -> Result<List<Met<P>>, OutOfMemory>
    ensures { IfOk result (λ plan. PlansOver old.now.output tree.now plan) }
{
    let mut planning = Planning {
        plan: List::new(alloc),
    };
    match &old.output {
        Some(was) => {
            walk(alloc, was, tree, &mut planning)?;
            let Planning { plan } = planning;
            Ok(plan)
        }
        None => {
            walk_new(alloc, tree, &mut planning)?;
            let Planning { plan } = planning;
            Ok(plan)
        }
    }
}

// The new block at its start.
fn block_for<P: Parts>(
    alloc: Global,
    old: &Side<P>,
    tree: VNode<P>,
) -> Result<Block<P>, OutOfMemory>
    ensures kept { IfOk result (λ block. KeepsOf old.now tree block.side) }
    ensures tree { IfOk result (λ block. block.side.output ≡ Some tree) }
{
    let side = kept_for(alloc, old, tree)?;
    let block = Block { side };
    Ok(block)
}

// The new tree with its nodes and components, and with the numbers and child scopes that are kept
// of the old one.
fn kept_for<P: Parts>(alloc: Global, old: &Side<P>, tree: VNode<P>) -> Result<Side<P>, OutOfMemory>
    ensures kept { IfOk result (λ side. KeepsOf old.now tree side) }
    ensures tree { IfOk result (λ side. side.output ≡ Some tree) }
{
    let found = walk_both(alloc, 0, SideName::Main, old, &tree)?;
    let Patched {
        work: _work,
        drops: _drops,
        nodes,
        seats,
        nodes_to,
        seats_to,
    } = found;
    let numbers = old.numbers.moved(alloc, nodes_to.as_slice())?;
    let children = old.children.moved(alloc, seats_to.as_slice())?;
    let nodes = Nodes::from_list(alloc, nodes)?;
    let seats = Seats::from_list(alloc, seats)?;
    let side = Side {
        output: Some(tree),
        nodes,
        seats,
        numbers,
        children,
    };
    Ok(side)
}
