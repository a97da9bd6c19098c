//! An application.
ghost use Rattle.std.specs.Prelude.{◌≡◌, IfOk, true, false};
ghost use Rattle.rt_model.specs.World.{Nothing, nothing};
ghost use Rattle.tree_mirror.specs.Mirror.{element_of};
ghost use Rattle.author_calls.specs.Answers.{event_of, step_of, no_answer};
ghost use Rattle.author_calls.specs.Calls.{meaning_of};
ghost use Rattle.run_records.specs.Records.{world_of};
ghost use Rattle.author_calls.specs.Turn.{begun, HadMemory};

use crate::cx::{BodyCx, Cx};
use crate::turn::{BodyTurn, Turn};
use rt_values::OutOfMemory;
use std::alloc::Global;
use tree_nodes::{Event, Parts};

/// What a poll answers.
#[derive(Drop)]
pub enum TaskStep<S> {
    /// The task goes on at the next poll with this state.
    Pending(S),
    /// The task has ended.
    Ready,
}

/// An application: its root component, and what its calls answer.
pub trait App: Parts {
    ghost use Rattle.rt_model.specs.Laws.{IsLawful};
    ghost use Rattle.rt_model.specs.OneLog.{types};
    ghost use Rattle.rt_model.specs.World.{Application};

    /// What its calls mean in a world, its root, and its tests of equal values.
    ghost meaning: { Self → Application
        (types Self.Component Self.Props Self.Value Self.Handler Self.TaskState Self.Effect Self.Payload) };

    /// The root component's props where none are handed in.
    ghost props_of_none: { Self → Self.Props };

    /// The root component.
    fn root(&self, alloc: Global) -> Result<Self::Component, OutOfMemory>
        ensures means { IfOk result (λ component. component ≡ (meaning self.now).root) };

    /// The root component's props where none are handed in.
    fn empty_props(&self, alloc: Global) -> Result<Self::Props, OutOfMemory>
        ensures means { IfOk result (λ props. props ≡ props_of_none self.now) };

    /// Calls the body of a component.
    fn render(
        &self,
        alloc: Global,
        component: &Self::Component,
        props: &Self::Props,
        cx: BodyCx<'_, Self>,
    ) -> Result<BodyTurn<Self>, OutOfMemory>
        requires fresh { cx ≡ begun true cx.world }

        // The turn is that of this call.
        ensures shows { IfOk result (λ turn. turn.world ≡ cx.entry.world) }

        ensures means { IfOk result (λ turn. HadMemory turn.meaning →
            meaning_of element_of turn.meaning
            ≡ (meaning self.now).body component.now props.now (world_of cx.entry.world)) };

    /// Polls a task, and answers where it stands then.
    fn poll(
        &self,
        alloc: Global,
        state: Self::TaskState,
        cx: Cx<'_, Self>,
    ) -> Result<Turn<Self, TaskStep<Self::TaskState>>, OutOfMemory>
        requires fresh { cx ≡ begun false cx.world }

        // The turn is that of this call.
        ensures shows { IfOk result (λ turn. turn.world ≡ cx.entry.world) }

        ensures means { IfOk result (λ turn. HadMemory turn.meaning →
            meaning_of step_of turn.meaning
            ≡ (meaning self.now).poll state (world_of cx.entry.world)) };

    /// Does an effect, a clean-up, the action of a render hook, or what waited for a suspense
    /// boundary.
    fn run_effect(
        &self,
        alloc: Global,
        effect: &Self::Effect,
        cx: Cx<'_, Self>,
    ) -> Result<Turn<Self, ()>, OutOfMemory>
        requires fresh { cx ≡ begun false cx.world }

        // The turn is that of this call.
        ensures shows { IfOk result (λ turn. turn.world ≡ cx.entry.world) }

        ensures means { IfOk result (λ turn. HadMemory turn.meaning →
            meaning_of no_answer turn.meaning
            ≡ (meaning self.now).effect effect.now (world_of cx.entry.world)) };

    /// Calls a listener's handler, which may stop the event or prevent its default.
    fn handle(
        &self,
        alloc: Global,
        handler: &Self::Handler,
        event: &mut Event<Self::Payload>,
        cx: Cx<'_, Self>,
    ) -> Result<Turn<Self, ()>, OutOfMemory>
        requires fresh { cx ≡ begun false cx.world }

        // The turn is that of this call.
        ensures shows { IfOk result (λ turn. turn.world ≡ cx.entry.world) }

        // What the handler answers is the event as it leaves it.
        ensures means { IfOk result (λ turn. HadMemory turn.meaning →
            meaning_of (λ _. event_of event.new) turn.meaning
            ≡ (meaning self.now).handle handler.now (event_of event.old) (world_of cx.entry.world)) };

    /// Whether a component is known to mean the same with new props as with old ones.
    fn memoize(&self, component: &Self::Component, old: &Self::Props, new: &Self::Props) -> bool
        ensures means { result ≡ (meaning self.now).memoize component.now old.now new.now };

    /// The laws of an application hold of what its calls mean.
    ghost lawful: { (app : Self) → IsLawful
        (types Self.Component Self.Props Self.Value Self.Handler Self.TaskState Self.Effect Self.Payload)
        (meaning app) };
}
