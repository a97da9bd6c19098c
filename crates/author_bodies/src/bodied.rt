//! The application that bodies make.
ghost use Rattle.std.specs.Prelude.{◌≡◌, true, false, IfOk};
ghost use Rattle.tree_mirror.specs.Mirror.{element_of};
ghost use Rattle.rt_model.specs.Program.{application_of};
ghost use Rattle.author_calls.specs.Answers.{event_of, step_of, no_answer};
ghost use Rattle.author_calls.specs.Calls.{meaning_of};
ghost use Rattle.run_records.specs.Records.{world_of};
ghost use Rattle.author_calls.specs.Turn.{begun, HadMemory};
ghost use Rattle.author_bodies.specs.Bodies.{bodies_are_lawful};

use crate::bodies::Bodies;
use crate::cells::KeepsCells;
use author_calls::{App, BodyCx, BodyTurn, Cx, TaskStep, Turn};
use rt_values::{OutOfMemory, Part};
use std::alloc::Global;
use tree_nodes::{Event, Parts};

/// The application of these bodies.
#[derive(Drop)]
pub struct Bodied<B: Parts> {
    pub bodies: B,
}

impl<B: Parts> Parts for Bodied<B> {
    type Component = B::Component;

    type Props = B::Props;

    type Value = B::Value;

    type Handler = B::Handler;

    type TaskState = B::TaskState;

    type Effect = B::Effect;

    type Payload = B::Payload;
}

impl<B: KeepsCells> KeepsCells for Bodied<B> {
    ghost keeping = { B.keeping };

    fn cell_kind() -> u32 {
        B::cell_kind()
    }

    fn keep_cell(alloc: Global, cell: u64) -> Result<B::Value, OutOfMemory> {
        B::keep_cell(alloc, cell)
    }

    fn cell_in(value: &B::Value) -> Option<u64> {
        B::cell_in(value)
    }
}

impl<B: Bodies> App for Bodied<B> {
    ghost meaning = { λ a. application_of (B.programs a.bodies) };

    ghost props_of_none = { λ a. B.props_of_none a.bodies };

    ghost lawful = { λ a. bodies_are_lawful _ (B.programs a.bodies) (B.decide a.bodies) };

    fn root(&self, alloc: Global) -> Result<B::Component, OutOfMemory> {
        self.bodies.root(alloc)
    }

    fn empty_props(&self, alloc: Global) -> Result<B::Props, OutOfMemory> {
        self.bodies.empty_props(alloc)
    }

    fn render(
        &self,
        alloc: Global,
        component: &B::Component,
        props: &B::Props,
        cx: BodyCx<'_, Bodied<B>>,
    ) -> Result<BodyTurn<Bodied<B>>, OutOfMemory>
        requires fresh { cx ≡ begun true cx.world }
        ensures shows { IfOk result (λ turn. turn.world ≡ cx.entry.world) }
        ensures means { IfOk result (λ turn. HadMemory turn.meaning →
            meaning_of element_of turn.meaning
            ≡ (application_of (B.programs self.now.bodies)).body component.now props.now
            (world_of cx.entry.world)) }
    {
        let mut cx = cx;
        let answer = self.bodies.body(alloc, component, props, &mut cx)?;
        Ok(cx.finish(answer))
    }

    fn poll(
        &self,
        alloc: Global,
        state: B::TaskState,
        cx: Cx<'_, Bodied<B>>,
    ) -> Result<Turn<Bodied<B>, TaskStep<B::TaskState>>, OutOfMemory>
        requires fresh { cx ≡ begun false cx.world }
        ensures shows { IfOk result (λ turn. turn.world ≡ cx.entry.world) }
        ensures means { IfOk result (λ turn. HadMemory turn.meaning →
            meaning_of step_of turn.meaning
            ≡ (application_of (B.programs self.now.bodies)).poll state
            (world_of cx.entry.world)) }
    {
        let mut cx = cx;
        let step = self.bodies.step(alloc, state, &mut cx)?;
        Ok(cx.finish(step))
    }

    fn run_effect(
        &self,
        alloc: Global,
        effect: &B::Effect,
        cx: Cx<'_, Bodied<B>>,
    ) -> Result<Turn<Bodied<B>, ()>, OutOfMemory>
        requires fresh { cx ≡ begun false cx.world }
        ensures shows { IfOk result (λ turn. turn.world ≡ cx.entry.world) }
        ensures means { IfOk result (λ turn. HadMemory turn.meaning →
            meaning_of no_answer turn.meaning
            ≡ (application_of (B.programs self.now.bodies)).effect effect.now
            (world_of cx.entry.world)) }
    {
        let mut cx = cx;
        self.bodies.effect(alloc, effect, &mut cx)?;
        Ok(cx.finish(()))
    }

    fn handle(
        &self,
        alloc: Global,
        handler: &B::Handler,
        event: &mut Event<B::Payload>,
        cx: Cx<'_, Bodied<B>>,
    ) -> Result<Turn<Bodied<B>, ()>, OutOfMemory>
        requires fresh { cx ≡ begun false cx.world }
        ensures shows { IfOk result (λ turn. turn.world ≡ cx.entry.world) }
        ensures means { IfOk result (λ turn. HadMemory turn.meaning →
            meaning_of (λ _. event_of event.new) turn.meaning
            ≡ (application_of (B.programs self.now.bodies)).handle handler.now
            (event_of event.old) (world_of cx.entry.world)) }
    {
        let mut cx = cx;
        self.bodies.hear(alloc, handler, event, &mut cx)?;
        Ok(cx.finish(()))
    }

    fn memoize(&self, _component: &B::Component, old: &B::Props, new: &B::Props) -> bool {
        old.same(new)
    }
}
