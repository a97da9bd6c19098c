//! An application whose calls wait for posts: a body, a poll, an effect and a clean-up.
ghost use Rattle.std.specs.Prelude.{◌≡◌, ◌≢◌, true, false, Some, IfOk, OnOk};
ghost use Rattle.tree_mirror.specs.Mirror.{element_of};
ghost use Rattle.author_calls.specs.Answers.{event_of, step_of, no_answer};
ghost use Rattle.author_calls.specs.Calls.{meaning_of};
ghost use Rattle.run_records.specs.Records.{world_of};
ghost use Rattle.author_calls.specs.Turn.{begun, HadMemory};
ghost use Rattle.rt_model.specs.World.{nothing};
ghost use Rattle.author_bodies.specs.Comes.{Comes, ComesIfRemembered};
ghost use Rattle.test_waiting.specs.Meaning as waiting;
ghost use Rattle.test_waiting.specs.Meaning.{body, done_effect, meaning};
ghost use Rattle.test_waiting.specs.Lawful.{lawful};

use crate::held::Kinds;
use author_bodies::{KeepsCells, or_out_of_memory, own_cell};
use author_calls::{App, BodyCx, BodyTurn, Cx, TaskStep, Turn};
use rt_values::{OutOfMemory, Shared};
use std::alloc::Global;
use std::sync::Arc;
use tree_nodes::{DynamicNode, Element, Event, Parts, VComponent, VNode};

/// The effect that is the child's clean-up.
const CLEAN_UP: u64 = 1_000_000;

/// The application. Its root shows a child until the child's effect writes; the child spawns a task,
/// queues the effect, and keeps a clean-up.
#[derive(Drop)]
pub struct Waiting {
    pub kinds: Arc<Kinds>,
}

impl Parts for Waiting {
    type Component = u64;

    /// Of the child the cell that its effect writes.
    type Props = u64;

    type Value = u64;

    type Handler = u64;

    type TaskState = u64;

    /// The cell that is written, or the clean-up.
    type Effect = u64;

    type Payload = u64;
}

impl KeepsCells for Waiting {
    ghost keeping = { waiting.keeping };

    fn cell_kind() -> u32 {
        0
    }

    fn keep_cell(_alloc: Global, cell: u64) -> Result<u64, OutOfMemory> {
        Ok(cell)
    }

    fn cell_in(value: &u64) -> Option<u64> {
        Some(*value)
    }
}

/// The child in a slot.
fn child(alloc: Global, cell: u64) -> Result<VNode<Waiting>, OutOfMemory>
    ensures tree { IfOk result (λ tree. tree ≡ waiting.child cell) }
{
    let VNode {
        template,
        dynamic_nodes: _,
        dynamic_attrs,
    } = VNode::placeholder(alloc)?;
    let child = VComponent::App {
        component: 1,
        props: cell,
    };
    Ok(VNode {
        template,
        dynamic_nodes: Shared::one(alloc, DynamicNode::Component(child))?,
        dynamic_attrs,
    })
}

/// What the root shows, by what its cell holds.
fn picked(alloc: Global, cell: u64, value: Option<u64>) -> Result<Element<Waiting>, OutOfMemory>
    ensures picked { IfOk result (λ answer. element_of answer ≡ waiting.element_by cell value) }
{
    match value {
        Some(held) => {
            if held == 0 {
                Ok(Ok(child(alloc, cell)?))
            } else {
                Ok(VNode::empty(alloc)?)
            }
        }
        None => Ok(VNode::empty(alloc)?),
    }
}

/// The root's body.
#[tactic(auto, using(author_bodies::proofs::Refused::hooking))]
fn shown(alloc: Global, cx: &mut BodyCx<'_, Waiting>) -> Result<Element<Waiting>, OutOfMemory>
    ensures came { IfOk result (λ answer.
        ComesIfRemembered cx.old cx.new waiting.root_body (element_of answer)) }
    ensures world { cx.new.world ≡ cx.old.world }
{
    match own_cell(alloc, cx, 0)? {
        Some(cell) => {
            let value = or_out_of_memory(cx.read(alloc, cell))?;
            Ok(picked(alloc, cell, value)?)
        }
        None => Ok(VNode::empty(alloc)?),
    }
}

/// Keeps the clean-up.
#[tactic(auto, using(author_programs::proofs::Steps::steps))]
fn keep(cx: &mut BodyCx<'_, Waiting>) -> Result<(), OutOfMemory>
    ensures came { OnOk result (Comes cx.old cx.new waiting.keeps nothing) }
    ensures world { cx.new.world ≡ cx.old.world }
{
    or_out_of_memory(cx.use_drop(CLEAN_UP))?;
    Ok(())
}

/// Spawns the task.
#[tactic(auto, using(author_programs::proofs::Steps::steps))]
fn spawn(cx: &mut BodyCx<'_, Waiting>) -> Result<(), OutOfMemory>
    ensures came { OnOk result (Comes cx.old cx.new waiting.spawns nothing) }
    ensures world { cx.new.world ≡ cx.old.world }
{
    or_out_of_memory(cx.spawn(0))?;
    Ok(())
}

/// Queues the effect that writes a cell.
#[tactic(auto, using(author_programs::proofs::Steps::steps))]
fn queue(cx: &mut BodyCx<'_, Waiting>, cell: u64) -> Result<(), OutOfMemory>
    ensures came { OnOk result (Comes cx.old cx.new (waiting.queues cell) nothing) }
    ensures world { cx.new.world ≡ cx.old.world }
{
    or_out_of_memory(cx.queue_effect(cell))?;
    Ok(())
}

/// The child's body.
fn begun_child(
    alloc: Global,
    cx: &mut BodyCx<'_, Waiting>,
    cell: u64,
) -> Result<Element<Waiting>, OutOfMemory>
    ensures came { IfOk result (λ answer.
        ComesIfRemembered cx.old cx.new (waiting.child_body cell) (element_of answer)) }
    ensures world { cx.new.world ≡ cx.old.world }
{
    keep(cx)?;
    spawn(cx)?;
    queue(cx, cell)?;
    Ok(VNode::empty(alloc)?)
}

/// The body of a component.
fn answer(
    alloc: Global,
    cx: &mut BodyCx<'_, Waiting>,
    component: u64,
    props: u64,
) -> Result<Element<Waiting>, OutOfMemory>
    ensures came { IfOk result (λ answer.
        ComesIfRemembered cx.old cx.new (body component props) (element_of answer)) }
    ensures world { cx.new.world ≡ cx.old.world }
{
    if component == 0 {
        Ok(shown(alloc, cx)?)
    } else {
        Ok(begun_child(alloc, cx, props)?)
    }
}

/// Writes the cell of an effect; nothing is left to do in the clean-up.
#[tactic(auto, using(author_bodies::proofs::Refused::hooking))]
fn act(cx: &mut Cx<'_, Waiting>, effect: u64) -> Result<(), OutOfMemory>
    ensures came { OnOk result (ComesIfRemembered cx.old cx.new (done_effect effect) nothing) }
    ensures world { cx.new.world ≡ cx.old.world }
{
    if effect == CLEAN_UP {
        return Ok(());
    }
    or_out_of_memory(cx.write(effect, 1))?;
    Ok(())
}

impl App for Waiting {
    ghost meaning = { waiting.meaning };

    ghost props_of_none = { λ _. 0 };

    ghost lawful = { lawful };

    fn root(&self, _alloc: Global) -> Result<u64, OutOfMemory> {
        Ok(0)
    }

    fn empty_props(&self, _alloc: Global) -> Result<u64, OutOfMemory> {
        Ok(0)
    }

    fn render(
        &self,
        alloc: Global,
        component: &u64,
        props: &u64,
        cx: BodyCx<'_, Waiting>,
    ) -> Result<BodyTurn<Waiting>, OutOfMemory>
        requires fresh { cx ≡ begun true cx.world }
        ensures shows { IfOk result (λ turn. turn.world ≡ cx.entry.world) }
        ensures means { IfOk result (λ turn. HadMemory turn.meaning →
            meaning_of element_of turn.meaning
            ≡ (meaning self.now).body component.now props.now (world_of cx.entry.world)) }
    {
        let kinds = self.kinds.as_ref();
        kinds.body.call();
        let mut cx = cx;
        let answer = answer(alloc, &mut cx, *component, *props)?;
        Ok(cx.finish(answer))
    }

    fn poll(
        &self,
        _alloc: Global,
        state: u64,
        cx: Cx<'_, Waiting>,
    ) -> Result<Turn<Waiting, TaskStep<u64>>, OutOfMemory>
        requires fresh { cx ≡ begun false cx.world }
        ensures shows { IfOk result (λ turn. turn.world ≡ cx.entry.world) }
        ensures means { IfOk result (λ turn. HadMemory turn.meaning →
            meaning_of step_of turn.meaning
            ≡ (meaning self.now).poll state (world_of cx.entry.world)) }
    {
        let kinds = self.kinds.as_ref();
        kinds.poll.call();
        Ok(cx.finish(TaskStep::Ready))
    }

    fn run_effect(
        &self,
        _alloc: Global,
        effect: &u64,
        cx: Cx<'_, Waiting>,
    ) -> Result<Turn<Waiting, ()>, OutOfMemory>
        requires fresh { cx ≡ begun false cx.world }
        ensures shows { IfOk result (λ turn. turn.world ≡ cx.entry.world) }
        ensures means { IfOk result (λ turn. HadMemory turn.meaning →
            meaning_of no_answer turn.meaning
            ≡ (meaning self.now).effect effect.now (world_of cx.entry.world)) }
    {
        let kinds = self.kinds.as_ref();
        if *effect == CLEAN_UP {
            kinds.clean_up.call();
        } else {
            kinds.effect.call();
        }
        let mut cx = cx;
        act(&mut cx, *effect)?;
        Ok(cx.finish(()))
    }

    fn handle(
        &self,
        _alloc: Global,
        handler: &u64,
        event: &mut Event<u64>,
        cx: Cx<'_, Waiting>,
    ) -> Result<Turn<Waiting, ()>, OutOfMemory>
        requires fresh { cx ≡ begun false cx.world }
        ensures shows { IfOk result (λ turn. turn.world ≡ cx.entry.world) }
        ensures means { IfOk result (λ turn. HadMemory turn.meaning →
            meaning_of (λ _. event_of event.new) turn.meaning
            ≡ (meaning self.now).handle handler.now (event_of event.old) (world_of cx.entry.world)) }
    {
        Ok(cx.finish(()))
    }

    fn memoize(&self, _component: &u64, old: &u64, new: &u64) -> bool {
        *old == *new
    }
}
