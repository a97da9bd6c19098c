//! The application that a source describes.
ghost use Rattle.std.specs.Prelude.{◌≡◌, ◌≢◌, [], map, Some, IfOk, OnOk, true, false};
ghost use Rattle.rt_model.specs.Lists.{nth, or_else};
ghost use Rattle.rt_model.specs.Program.{done};
ghost use Rattle.rt_model.specs.World.{nothing};
ghost use Rattle.tree_mirror.specs.Sealed as mirror;
ghost use Rattle.rt_language.specs.Expressions.{AListener, Stepping};
ghost use Rattle.rt_language.specs.Meaning.{action_run, next_step, pending_at, poll_step};
ghost use Rattle.rt_language.specs.Sequence.{go_on};
ghost use Rattle.rt_language.specs.Syntax.{NoStatements};
ghost use Rattle.lang_syntax.specs.Mirror.{statements_of, source_of};
ghost use Rattle.lang_syntax.specs.Outside.{stand_outside};
ghost use Rattle.lang_script.specs.Applications.{programs_of_script, meaning_of_script, props_of_script, body_of, asked_by, heard};
ghost use Rattle.author_bodies.specs.Comes.{Comes, ComesIfRemembered};
ghost use Rattle.lang_script.specs.Laws.{scripts_are_lawful, MeansSource};
ghost use Rattle.author_calls.specs.Answers.{event_of, step_of, no_answer};
ghost use Rattle.author_calls.specs.Calls.{meaning_of};
ghost use Rattle.run_records.specs.Records.{world_of};
ghost use Rattle.author_calls.specs.Turn.{begun, HadMemory};
ghost use Rattle.tree_mirror.specs.Mirror.{element_of};

use crate::bodies::run_body;
use crate::caller::{Caller, Frame, Outcome};
use crate::evaluation::said;
use crate::filling::tree_of;
use crate::memos::Deriver;
use crate::running::run_statements;
use crate::state::{TaskKind, TaskState};
use author_calls::{App, BodyCx, BodyTurn, Cx, TaskStep, Turn};
use author_deriving::step_memo;
use lang_syntax::{Literal, OutsideStatements, Source, Statement};
use lang_views::{ComponentPlan, Doing, Props, Standing, Value, component_plans};
use rt_values::{List, OutOfMemory, Part};
use std::alloc::Global;
use tree_nodes::{Element, Event, Parts, VNode};

/// The application that a source describes. Components, actions and tasks are named by their
/// places.
#[derive(Drop)]
pub struct Script {
    components: List<ComponentPlan>,
    root: u64,
    props: List<Literal>,
    actions: List<OutsideStatements>,
    /// Each by its steps.
    tasks: List<List<OutsideStatements>>,
}

/// What a listener asks of its event.
#[derive(Clone, Copy)]
pub(crate) struct Asked {
    pub stopped: bool,
    pub prevented: bool,
}

impl Parts for Script {
    type Component = u64;

    type Props = Props;

    type Value = Value;

    type Handler = Doing;

    type TaskState = TaskState;

    type Effect = Doing;

    type Payload = Value;
}

impl Script {
    /// The application of a source, whose inputs and posts are not part of it: take these first.
    pub fn new(alloc: Global, source: Source) -> Result<Script, OutOfMemory>
        ensures means { IfOk result (λ script. MeansSource script (source_of source)) }
    {
        let Source {
            components,
            root,
            props,
            actions,
            tasks,
            inputs: _,
            posts: _,
        } = source;
        let components = component_plans(alloc, components)?;
        Ok(Script {
            components,
            root,
            props,
            actions,
            tasks,
        })
    }

    /// The props of the root that the source names.
    pub fn props(&self, alloc: Global) -> Result<Props, OutOfMemory>
        ensures props { IfOk result (λ props. props ≡ props_of_script self.now) }
    {
        let mut values = List::new(alloc);
        for literal in self.props.as_slice() {
            values.push(said(alloc, literal)?)?;
        }
        Props::new(alloc, values)
    }

    /// The answer of a component's body; a placeholder where there is no such component.
    #[tactic(auto, using(crate::proofs::Meant::answering))]
    fn answer(
        &self,
        alloc: Global,
        cx: &mut BodyCx<'_, Script>,
        component: u64,
        props: &Props,
    ) -> Result<Element<Script>, OutOfMemory>
        ensures came { IfOk result (λ answer. ComesIfRemembered cx.old cx.new
            ((programs_of_script self.now).body component props.now) (mirror.element_of answer)) }
        ensures world { cx.new.world ≡ cx.old.world }
    {
        match self.components.get(component as usize) {
            Some(component) => Ok(answer_of(alloc, cx, component, props)?),
            None => Ok(VNode::empty(alloc)?),
        }
    }

    /// The statements of an action, none where there is no such action.
    #[tactic(auto, using(crate::proofs::Places::placed))]
    fn statements(&self, place: u64) -> &[Statement]
        ensures statements { statements_of result.now
            ≡ or_else NoStatements (nth (map statements_of self.now.actions) place) }
        ensures stand { stand_outside result.now ≡ true }
    {
        match self.actions.get(place as usize) {
            Some(statements) => statements.as_slice(),
            None => &[],
        }
    }

    /// Does the action of a listener, and answers what it asks of the event: nothing where a call
    /// was refused.
    #[tactic(auto, using(crate::proofs::Meant::answering))]
    fn listen(
        &self,
        alloc: Global,
        cx: &mut Cx<'_, Script>,
        handler: &Doing,
        payload: &Value,
    ) -> Result<Asked, OutOfMemory>
        ensures came { IfOk result (λ asked. ComesIfRemembered cx.old cx.new
            (go_on (action_run (AListener payload.now) (map statements_of self.now.actions) handler.now) (λ o. done (asked_by o))) asked) }
        ensures world { cx.new.world ≡ cx.old.world }
    {
        let by = Caller::Listener { payload };
        let mut frame = Frame::new(alloc, by, handler.arguments())?;
        match run_statements(alloc, cx, &mut frame, self.statements(handler.action()))? {
            Outcome::WentOn => Ok(Asked {
                stopped: frame.stopped,
                prevented: frame.prevented,
            }),
            _ => Ok(Asked {
                stopped: false,
                prevented: false,
            }),
        }
    }

    /// Does an action that no event calls.
    fn act(&self, alloc: Global, cx: &mut Cx<'_, Script>, doing: &Doing) -> Result<(), OutOfMemory>
        ensures came { OnOk result (ComesIfRemembered cx.old cx.new
            ((programs_of_script self.now).effect doing.now) nothing) }
        ensures world { cx.new.world ≡ cx.old.world }
    {
        let mut frame = Frame::new(alloc, Caller::Other, doing.arguments())?;
        let _outcome = run_statements(alloc, cx, &mut frame, self.statements(doing.action()))?;
        Ok(())
    }

    /// The steps of a task, none where there is no such task.
    #[tactic(auto, using(crate::proofs::Places::placed))]
    fn steps(&self, place: u64) -> &[OutsideStatements]
        ensures steps { map statements_of result.now
            ≡ or_else [] (nth (map (map statements_of) self.now.tasks) place) }
    {
        match self.tasks.get(place as usize) {
            Some(steps) => steps.as_slice(),
            None => &[],
        }
    }

    /// Polls a task, and answers where it stands then.
    fn polled(
        &self,
        alloc: Global,
        cx: &mut Cx<'_, Script>,
        state: TaskState,
    ) -> Result<TaskStep<TaskState>, OutOfMemory>
        ensures came { IfOk result (λ step. ComesIfRemembered cx.old cx.new
            ((programs_of_script self.now).poll state) (step_of step)) }
        ensures world { cx.new.world ≡ cx.old.world }
    {
        match state.into_kind() {
            TaskKind::Stepping(standing) => Ok(self.step(alloc, cx, standing)?),
            TaskKind::Minding(task) => Ok(step_memo(&Deriver, alloc, task, cx)?),
        }
    }

    /// Runs the present step of a task, and answers where the task stands then.
    #[tactic(auto, using(crate::proofs::Meant::answering))]
    fn step(
        &self,
        alloc: Global,
        cx: &mut Cx<'_, Script>,
        state: Standing,
    ) -> Result<TaskStep<TaskState>, OutOfMemory>
        ensures came { IfOk result (λ step. ComesIfRemembered cx.old cx.new
            ((programs_of_script self.now).poll (Stepping state)) (step_of step)) }
        ensures world { cx.new.world ≡ cx.old.world }
    {
        let steps = self.steps(state.task());
        match steps.get(state.step() as usize) {
            Some(statements) => {
                Ok(run_step(alloc, cx, state, statements.as_slice(), steps.len())?)
            }
            None => Ok(TaskStep::Ready),
        }
    }
}

/// Leaves an event as a listener asks.
#[tactic(auto, using(crate::proofs::Heard::hearing))]
fn leave(event: &mut Event<Value>, asked: Asked)
    ensures left { event_of event.new ≡ heard (event_of event.old) asked }
{
    if asked.stopped {
        event.stop_propagation();
    }
    if asked.prevented {
        event.prevent_default();
    }
}

/// The answer of a component's body.
#[tactic(auto, using(crate::proofs::Meant::answering))]
fn answer_of(
    alloc: Global,
    cx: &mut BodyCx<'_, Script>,
    component: &ComponentPlan,
    props: &Props,
) -> Result<Element<Script>, OutOfMemory>
    ensures came { IfOk result (λ answer. ComesIfRemembered cx.old cx.new
        (body_of (Some component.now) props.now) (mirror.element_of answer)) }
    ensures world { cx.new.world ≡ cx.old.world }
{
    let by = Caller::Body {
        generation: cx.generation(),
    };
    let mut frame = Frame::new(alloc, by, props.values())?;
    match run_body(alloc, cx, &mut frame, component.statements.as_slice())? {
        Outcome::WentOn => {
            let tree = tree_of(alloc, cx, &mut frame, &component.view)?;
            Ok(Ok(tree))
        }
        Outcome::Ended(answer) => Ok(answer),
        Outcome::Refused => Ok(VNode::empty(alloc)?),
    }
}

/// Runs the statements of a task's step, of so many, and answers where the task stands then.
fn run_step(
    alloc: Global,
    cx: &mut Cx<'_, Script>,
    state: Standing,
    statements: &[Statement],
    steps: usize,
) -> Result<TaskStep<TaskState>, OutOfMemory>
    requires stand { stand_outside statements.now ≡ true }
    ensures came { IfOk result (λ step. ComesIfRemembered cx.old cx.new
        (poll_step state steps (Some (statements_of statements.now))) (step_of step)) }
    ensures world { cx.new.world ≡ cx.old.world }
{
    let mut frame = Frame::new(alloc, Caller::Other, state.arguments())?;
    match run_statements(alloc, cx, &mut frame, statements)? {
        Outcome::WentOn => Ok(after(state, frame.stays, steps)),
        Outcome::Ended(_answer) => Ok(TaskStep::Ready),
        Outcome::Refused => Ok(TaskStep::Ready),
    }
}

/// Where a task stands after a step, of so many: at the same one where it stays, else at the next.
fn after(state: Standing, stays: bool, steps: usize) -> TaskStep<TaskState>
    ensures step { step_of result ≡ pending_at state steps (next_step state.step stays) }
{
    let next = if stays {
        state.step()
    } else {
        state.step().saturating_add(1)
    };
    if next < steps as u64 {
        TaskStep::Pending(TaskState::stepping(state.at(next)))
    } else {
        TaskStep::Ready
    }
}

impl App for Script {
    ghost meaning = { meaning_of_script };

    ghost props_of_none = { λ _. [] };

    ghost lawful = { scripts_are_lawful };

    fn root(&self, _alloc: Global) -> Result<u64, OutOfMemory> {
        Ok(self.root)
    }

    fn empty_props(&self, _alloc: Global) -> Result<Props, OutOfMemory> {
        Ok(Props::none())
    }

    fn render(
        &self,
        alloc: Global,
        component: &u64,
        props: &Props,
        cx: BodyCx<'_, Script>,
    ) -> Result<BodyTurn<Script>, OutOfMemory>
        requires fresh { cx ≡ begun true cx.world }
        ensures shows { IfOk result (λ turn. turn.world ≡ cx.entry.world) }
        ensures means { IfOk result (λ turn. HadMemory turn.meaning →
            meaning_of element_of turn.meaning
            ≡ (meaning_of_script self.now).body component.now props.now (world_of cx.entry.world)) }
    {
        let mut cx = cx;
        let answer = self.answer(alloc, &mut cx, *component, props)?;
        Ok(cx.finish(answer))
    }

    fn poll(
        &self,
        alloc: Global,
        state: TaskState,
        cx: Cx<'_, Script>,
    ) -> Result<Turn<Script, TaskStep<TaskState>>, OutOfMemory>
        requires fresh { cx ≡ begun false cx.world }
        ensures shows { IfOk result (λ turn. turn.world ≡ cx.entry.world) }
        ensures means { IfOk result (λ turn. HadMemory turn.meaning →
            meaning_of step_of turn.meaning
            ≡ (meaning_of_script self.now).poll state (world_of cx.entry.world)) }
    {
        let mut cx = cx;
        let step = self.polled(alloc, &mut cx, state)?;
        Ok(cx.finish(step))
    }

    fn run_effect(
        &self,
        alloc: Global,
        effect: &Doing,
        cx: Cx<'_, Script>,
    ) -> Result<Turn<Script, ()>, OutOfMemory>
        requires fresh { cx ≡ begun false cx.world }
        ensures shows { IfOk result (λ turn. turn.world ≡ cx.entry.world) }
        ensures means { IfOk result (λ turn. HadMemory turn.meaning →
            meaning_of no_answer turn.meaning
            ≡ (meaning_of_script self.now).effect effect.now (world_of cx.entry.world)) }
    {
        let mut cx = cx;
        self.act(alloc, &mut cx, effect)?;
        Ok(cx.finish(()))
    }

    fn handle(
        &self,
        alloc: Global,
        handler: &Doing,
        event: &mut Event<Value>,
        cx: Cx<'_, Script>,
    ) -> Result<Turn<Script, ()>, OutOfMemory>
        requires fresh { cx ≡ begun false cx.world }
        ensures shows { IfOk result (λ turn. turn.world ≡ cx.entry.world) }
        ensures means { IfOk result (λ turn. HadMemory turn.meaning →
            meaning_of (λ _. event_of event.new) turn.meaning
            ≡ (meaning_of_script self.now).handle handler.now (event_of event.old) (world_of cx.entry.world)) }
    {
        let mut cx = cx;
        let asked = self.listen(alloc, &mut cx, handler, &event.payload)?;
        leave(event, asked);
        Ok(cx.finish(()))
    }

    fn memoize(&self, _component: &u64, old: &Props, new: &Props) -> bool {
        old.same(new)
    }
}
