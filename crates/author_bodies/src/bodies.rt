//! What an author gives who writes with the calls of a `Cx`.
ghost use Rattle.std.specs.Prelude.{◌≡◌, IfOk, OnOk};
ghost use Rattle.tree_mirror.specs.Mirror.{element_of};
ghost use Rattle.rt_model.specs.World.{nothing};
ghost use Rattle.author_calls.specs.Answers.{event_of, step_of};
ghost use Rattle.author_bodies.specs.Comes.{ComesIfRemembered};

use crate::bodied::Bodied;
use crate::cells::KeepsCells;
use author_calls::{BodyCx, Cx, TaskStep};
use rt_values::OutOfMemory;
use std::alloc::Global;
use tree_nodes::{Element, Event};

/// An application whose bodies, steps of tasks, effects and listeners are written with the calls of
/// a `Cx`: each makes the calls of its program, in order. Its types are those of `Parts`, and stand
/// below, so that these answers can call any function that is handed the `Cx`.
pub trait Bodies: KeepsCells {
    ghost use Rattle.rt_model.specs.OneLog.{types};
    ghost use Rattle.rt_model.specs.Program.{Programs};
    ghost use Rattle.author_bodies.specs.Bodies.{ProgramsDecide};

    /// What its calls are.
    ghost programs: { Self → Programs
        (types Self.Component Self.Props Self.Value Self.Handler Self.TaskState Self.Effect Self.Payload) };

    /// The root component's props where none are handed in.
    ghost props_of_none: { Self → Self.Props };

    /// The root component.
    fn root(&self, alloc: Global) -> Result<Self::Component, OutOfMemory>
        ensures root { IfOk result (λ component. component ≡ (programs self.now).root) };

    /// The root component's props where none are handed in.
    fn empty_props(&self, alloc: Global) -> Result<Self::Props, OutOfMemory>
        ensures props { IfOk result (λ props. props ≡ props_of_none self.now) };

    /// The body of a component.
    fn body(
        &self,
        alloc: Global,
        component: &Self::Component,
        props: &Self::Props,
        cx: &mut BodyCx<'_, Bodied<Self>>,
    ) -> Result<Element<Bodied<Self>>, OutOfMemory>
        ensures came { IfOk result (λ answer. ComesIfRemembered cx.old cx.new
            ((programs self.now).body component.now props.now) (element_of answer)) }
        ensures world { cx.new.world ≡ cx.old.world };

    /// A step of a task.
    fn step(
        &self,
        alloc: Global,
        state: Self::TaskState,
        cx: &mut Cx<'_, Bodied<Self>>,
    ) -> Result<TaskStep<Self::TaskState>, OutOfMemory>
        ensures came { IfOk result (λ step. ComesIfRemembered cx.old cx.new
            ((programs self.now).poll state) (step_of step)) }
        ensures world { cx.new.world ≡ cx.old.world };

    /// An effect.
    fn effect(
        &self,
        alloc: Global,
        effect: &Self::Effect,
        cx: &mut Cx<'_, Bodied<Self>>,
    ) -> Result<(), OutOfMemory>
        ensures came { OnOk result (ComesIfRemembered cx.old cx.new
            ((programs self.now).effect effect.now) nothing) }
        ensures world { cx.new.world ≡ cx.old.world };

    /// A listener. It leaves the event as it is to go on.
    fn hear(
        &self,
        alloc: Global,
        handler: &Self::Handler,
        event: &mut Event<Self::Payload>,
        cx: &mut Cx<'_, Bodied<Self>>,
    ) -> Result<(), OutOfMemory>
        ensures came { OnOk result (ComesIfRemembered cx.old cx.new
            ((programs self.now).handle handler.now (event_of event.old)) (event_of event.new)) }
        ensures world { cx.new.world ≡ cx.old.world };

    /// The tests decide, and a component means the same with equal props.
    ghost decide: { (bodies : Self) → ProgramsDecide
        (types Self.Component Self.Props Self.Value Self.Handler Self.TaskState Self.Effect Self.Payload)
        (programs bodies) };
}
