//! What statements do that any call may run.
ghost use Rattle.std.specs.Prelude.{◌≡◌, ◌↔◌, Err, IsTrue, true, IfOk, IfErr, OnOk};
ghost use Rattle.rt_model.specs.Program.{drew_task};
ghost use Rattle.rt_model.specs.World.{at_end};
ghost use Rattle.run_records.specs.Records.{world_of};
ghost use Rattle.author_calls.specs.Calls.{call_of};
ghost use Rattle.author_calls.specs.Steps.{DrawsNone};
ghost use Rattle.run_records.specs.declared.faults.Counter.TheVariants.{Tasks};
ghost use Rattle.run_records.specs.declared.faults.CxFault.TheVariants.{IdsExhausted};
ghost use Rattle.rt_language.specs.Expressions.{Stepping};
ghost use Rattle.rt_language.specs.Statements as meanings;
ghost use Rattle.rt_language.specs.Statements.{WentOn, is_forever, is_isomorphic, acted_on, goes_on};
ghost use Rattle.rt_language.specs.Syntax as language;
ghost use Rattle.lang_syntax.specs.Mirror.{expression_of, arguments_of, simple_of, statement_of, statements_of, spawned_of, act_of};
ghost use Rattle.lang_syntax.specs.Outside.{stands_outside, stand_outside};
ghost use Rattle.author_bodies.specs.Comes.{Comes};
ghost use Rattle.lang_script.specs.Seen.{caller_of, SeesRenders, IsOutside, frame_of, outcome_of, Knows, Follows};

use crate::caller::{Frame, Outcome, held_cell, held_task, scope_in};
use crate::evaluation::{evaluate, evaluate_all};
use crate::script::Script;
use crate::state::TaskState;
use author_bodies::{or_out_of_memory, unless_refused};
use author_calls::Cx;
use lang_syntax::{Expression, Simple, SpawnKind, Statement, TaskAct};
use lang_views::{Doing, Standing, Value, text_of};
use rt_values::{List, OutOfMemory, Task};
use run_records::CxFault;
use std::alloc::Global;

/// Runs the statements of an action or a step, one after another. What stands in bodies alone isn't
/// among them.
#[cycle(running)]
#[tactic(auto, using(crate::proofs::Statements::allowing))]
pub(crate) fn run_statements<K>(
    alloc: Global,
    cx: &mut Cx<'_, Script, K>,
    frame: &mut Frame<'_>,
    statements: &[Statement],
) -> Result<Outcome, OutOfMemory>
    requires outside { IsOutside frame.old.by }
    requires stand { stand_outside statements.now ≡ true }
    ensures came { IfOk result (λ o. Knows o cx.new (Comes cx.old cx.new
        (meanings.run_statements (caller_of frame.old.by) (frame_of frame.old) (statements_of statements.now))
        (outcome_of o (frame_of frame.new)))) }
    ensures world { cx.new.world ≡ cx.old.world }
    ensures follows { OnOk result (Follows frame.old frame.new) }
{
    for statement in statements {
        match perform(alloc, cx, frame, allowed(statement))? {
            Outcome::WentOn => {}
            outcome => return Ok(outcome),
        }
    }
    Ok(Outcome::WentOn)
}

/// Does one statement of an action or a step.
#[cycle(running)]
#[tactic(auto, using(crate::proofs::Statements::allowing))]
fn perform<K>(
    alloc: Global,
    cx: &mut Cx<'_, Script, K>,
    frame: &mut Frame<'_>,
    statement: &Statement,
) -> Result<Outcome, OutOfMemory>
    requires outside { IsOutside frame.old.by }
    requires stands { stands_outside statement.now ≡ true }
    ensures came { IfOk result (λ o. Knows o cx.new (Comes cx.old cx.new
        (meanings.perform (caller_of frame.old.by) (frame_of frame.old) (statement_of statement.now))
        (outcome_of o (frame_of frame.new)))) }
    ensures world { cx.new.world ≡ cx.old.world }
    ensures follows { OnOk result (Follows frame.old frame.new) }
{
    match statement {
        Statement::Does(simple) => {
            ask(alloc, cx, frame, simple)?;
            Ok(Outcome::WentOn)
        }
        Statement::When { test, statements } => {
            Ok(run_when(alloc, cx, frame, under(statements), test)?)
        }
        Statement::SpawnTask {
            task,
            arguments,
            kind,
        } => Ok(spawn_task(alloc, cx, frame, *task, arguments.as_slice(), *kind)?),
        Statement::ThrowText(text) => Ok(throw(alloc, cx, frame, text)?),
        Statement::UseCell(_)
        | Statement::UseHook(_)
        | Statement::UseDerived(_)
        | Statement::CallAt { .. }
        | Statement::FailWith(_)
        | Statement::SuspendOn(_) => unreachable!(),
    }
}

/// Runs statements where a test is true. Names that are bound in them end with them.
#[cycle(running)]
#[tactic(auto, using(crate::proofs::Statements::whens))]
fn run_when<K>(
    alloc: Global,
    cx: &mut Cx<'_, Script, K>,
    frame: &mut Frame<'_>,
    statements: &[Statement],
    test: &Expression,
) -> Result<Outcome, OutOfMemory>
    requires outside { IsOutside frame.old.by }
    requires stand { stand_outside statements.now ≡ true }
    ensures came { IfOk result (λ o. Knows o cx.new (Comes cx.old cx.new
        (meanings.perform (caller_of frame.old.by) (frame_of frame.old)
        (language.When (expression_of test.now) (statements_of statements.now)))
        (outcome_of o (frame_of frame.new)))) }
    ensures world { cx.new.world ≡ cx.old.world }
    ensures follows { OnOk result (Follows frame.old frame.new) }
{
    let bound = frame.held.len();
    if !evaluate(alloc, cx, frame, test)?.is_true() {
        return Ok(Outcome::WentOn);
    }
    let outcome = run_statements(alloc, cx, frame, statements)?;
    frame.keep(alloc, bound);
    Ok(outcome)
}

/// A statement that may stand outside of bodies.
fn allowed(statement: &Statement) -> &Statement
    requires stands { stands_outside statement.now ≡ true }
    ensures same { result.now ≡ statement.now }
    ensures stands { stands_outside result.now ≡ true }
{
    statement
}

/// What is under a test in such a statement: it may stand there, too.
fn under(statements: &List<Statement>) -> &[Statement]
    requires stand { stand_outside statements.now ≡ true }
    ensures statements { result.now ≡ statements.now }
    ensures stand { stand_outside result.now ≡ true }
{
    statements.as_slice()
}

/// Spawns a task with the values of its arguments, and binds it.
#[tactic(auto, using(crate::proofs::Statements::performing))]
fn spawn_task<K>(
    alloc: Global,
    cx: &mut Cx<'_, Script, K>,
    frame: &mut Frame<'_>,
    task: u64,
    arguments: &[Expression],
    kind: SpawnKind,
) -> Result<Outcome, OutOfMemory>
    requires outside { IsOutside frame.old.by }
    ensures came { IfOk result (λ o. Knows o cx.new (Comes cx.old cx.new
        (meanings.perform (caller_of frame.old.by) (frame_of frame.old)
        (language.SpawnTask task (arguments_of arguments.now) (spawned_of kind)))
        (outcome_of o (frame_of frame.new)))) }
    ensures world { cx.new.world ≡ cx.old.world }
    ensures follows { OnOk result (Follows frame.old frame.new) }
{
    let arguments = evaluate_all(alloc, cx, frame, arguments)?;
    match unless_refused(spawn(cx, Standing::new(task, arguments), kind))? {
        Some(task) => {
            frame.bind(Value::task(task.0))?;
            Ok(Outcome::WentOn)
        }
        None => Ok(Outcome::Refused),
    }
}

/// Spawns a task.
pub(crate) fn spawn<K>(
    cx: &mut Cx<'_, Script, K>,
    standing: Standing,
    kind: SpawnKind,
) -> Result<Task, CxFault>
    ensures value { IfOk result (λ task. task.0 ≡ cx.old.next.tasks) }
    ensures call { OnOk result (call_of cx.new ≡ drew_task (call_of cx.old) (Stepping standing)
        (is_forever (spawned_of kind)) (is_isomorphic (spawned_of kind))) }
    ensures at_end { (result ≡ Err (IdsExhausted Tasks))
        ↔ IsTrue (at_end cx.old.next.tasks) }
    ensures err { IfErr result (DrawsNone Tasks cx.old cx.new) }
    ensures world { cx.new.world ≡ cx.old.world }
{
    let state = TaskState::stepping(standing);
    match kind {
        SpawnKind::Client => cx.spawn(state),
        SpawnKind::Isomorphic => cx.spawn_isomorphic(state),
        SpawnKind::Forever => cx.spawn_forever(state),
    }
}

/// Throws an error with the text of a value.
#[tactic(auto, using(crate::proofs::Statements::performing))]
pub(crate) fn throw<K>(
    alloc: Global,
    cx: &mut Cx<'_, Script, K>,
    frame: &Frame<'_>,
    text: &Expression,
) -> Result<Outcome, OutOfMemory>
    requires renders { SeesRenders (world_of cx.old.world) frame.now.by }
    ensures came { IfOk result (λ o. Knows o cx.new (Comes cx.old cx.new
        (meanings.perform (caller_of frame.now.by) (frame_of frame.now) (language.ThrowText (expression_of text.now)))
        (outcome_of o (frame_of frame.now)))) }
    ensures world { cx.new.world ≡ cx.old.world }
{
    let value = evaluate(alloc, cx, frame, text)?;
    let text = text_of(alloc, &value)?;
    match unless_refused(cx.captured(text))? {
        Some(error) => {
            or_out_of_memory(cx.throw_error(error))?;
            Ok(Outcome::WentOn)
        }
        None => Ok(Outcome::Refused),
    }
}

/// Does a statement after which the next one always follows.
#[tactic(auto, using(crate::proofs::Statements::performing))]
pub(crate) fn ask<K>(
    alloc: Global,
    cx: &mut Cx<'_, Script, K>,
    frame: &mut Frame<'_>,
    statement: &Simple,
) -> Result<(), OutOfMemory>
    requires renders { SeesRenders (world_of cx.old.world) frame.old.by }
    ensures came { OnOk result (Comes cx.old cx.new
        (meanings.perform (caller_of frame.old.by) (frame_of frame.old) (simple_of statement.now))
        (WentOn (frame_of frame.new))) }
    ensures world { cx.new.world ≡ cx.old.world }
    ensures follows { OnOk result (Follows frame.old frame.new) }
{
    match statement {
        Simple::Let(expression) => {
            let value = evaluate(alloc, cx, frame, expression)?;
            frame.bind(value)?;
        }
        Simple::EffectOf { action, arguments } => {
            let arguments = evaluate_all(alloc, cx, frame, arguments.as_slice())?;
            or_out_of_memory(cx.queue_effect(Doing::new(*action, arguments)))?;
        }
        Simple::OnResolved { action, arguments } => {
            let arguments = evaluate_all(alloc, cx, frame, arguments.as_slice())?;
            or_out_of_memory(cx.after_suspense_resolved(Doing::new(*action, arguments)))?;
        }
        Simple::FreezeBoundary => or_out_of_memory(cx.freeze())?,
        Simple::ProvideAs { kind, value } => provide(alloc, cx, frame, *kind, value)?,
        Simple::WriteTo { variable, value } => write_held(alloc, cx, frame, *variable, value)?,
        Simple::Forget(variable) => forget_held(cx, frame, *variable)?,
        Simple::ActOn { act, variable } => act_held(cx, frame, *act, *variable)?,
        Simple::MarkScopeOf(scope) => mark(alloc, cx, frame, scope)?,
        Simple::ClearError => or_out_of_memory(cx.clear_errors())?,
        Simple::Stop => frame.stopped = true,
        Simple::Prevent => frame.prevented = true,
        Simple::Stay => frame.stays = true,
    }
    Ok(())
}

/// Provides a value of a kind of context. A kind that isn't below 2^32 would find no memory: there is
/// no memory for so many.
#[tactic(auto, using(crate::proofs::Statements::performing))]
fn provide<K>(
    alloc: Global,
    cx: &mut Cx<'_, Script, K>,
    frame: &Frame<'_>,
    kind: u64,
    value: &Expression,
) -> Result<(), OutOfMemory>
    requires renders { SeesRenders (world_of cx.old.world) frame.now.by }
    ensures came { OnOk result (Comes cx.old cx.new
        (meanings.perform (caller_of frame.now.by) (frame_of frame.now)
        (language.ProvideAs kind (expression_of value.now)))
        (WentOn (frame_of frame.now))) }
    ensures world { cx.new.world ≡ cx.old.world }
{
    let value = evaluate(alloc, cx, frame, value)?;
    let Ok(kind) = u32::try_from(kind) else {
        return Err(OutOfMemory);
    };
    or_out_of_memory(cx.provide_context(kind, value))?;
    Ok(())
}

/// Writes a value to the cell that a variable holds, where it holds one.
#[tactic(auto, using(crate::proofs::Statements::performing))]
fn write_held<K>(
    alloc: Global,
    cx: &mut Cx<'_, Script, K>,
    frame: &Frame<'_>,
    variable: u64,
    value: &Expression,
) -> Result<(), OutOfMemory>
    requires renders { SeesRenders (world_of cx.old.world) frame.now.by }
    ensures came { OnOk result (Comes cx.old cx.new
        (meanings.perform (caller_of frame.now.by) (frame_of frame.now)
        (language.WriteTo variable (expression_of value.now)))
        (WentOn (frame_of frame.now))) }
    ensures world { cx.new.world ≡ cx.old.world }
{
    let value = evaluate(alloc, cx, frame, value)?;
    if let Some(cell) = held_cell(frame.held.as_slice(), variable) {
        or_out_of_memory(cx.write(cell, value))?;
    }
    Ok(())
}

/// Marks the scope with the number of a value, where that is one.
#[tactic(auto, using(crate::proofs::Statements::performing))]
fn mark<K>(
    alloc: Global,
    cx: &mut Cx<'_, Script, K>,
    frame: &Frame<'_>,
    scope: &Expression,
) -> Result<(), OutOfMemory>
    requires renders { SeesRenders (world_of cx.old.world) frame.now.by }
    ensures came { OnOk result (Comes cx.old cx.new
        (meanings.perform (caller_of frame.now.by) (frame_of frame.now)
        (language.MarkScopeOf (expression_of scope.now)))
        (WentOn (frame_of frame.now))) }
    ensures world { cx.new.world ≡ cx.old.world }
{
    let value = evaluate(alloc, cx, frame, scope)?;
    if let Some(scope) = scope_in(&value) {
        or_out_of_memory(cx.needs_update_any(scope))?;
    }
    Ok(())
}

/// Drops the cell that a variable holds, where it holds one.
#[tactic(auto, using(crate::proofs::Statements::performing))]
fn forget_held<K>(
    cx: &mut Cx<'_, Script, K>,
    frame: &Frame<'_>,
    variable: u64,
) -> Result<(), OutOfMemory>
    ensures came { OnOk result (Comes cx.old cx.new
        (meanings.perform (caller_of frame.now.by) (frame_of frame.now) (language.Forget variable))
        (WentOn (frame_of frame.now))) }
    ensures world { cx.new.world ≡ cx.old.world }
{
    if let Some(cell) = held_cell(frame.held.as_slice(), variable) {
        or_out_of_memory(cx.drop_cell(cell))?;
    }
    Ok(())
}

/// Acts on the task that a variable holds, where it holds one.
#[tactic(auto, using(crate::proofs::Statements::performing))]
fn act_held<K>(
    cx: &mut Cx<'_, Script, K>,
    frame: &Frame<'_>,
    act: TaskAct,
    variable: u64,
) -> Result<(), OutOfMemory>
    ensures came { OnOk result (Comes cx.old cx.new
        (meanings.perform (caller_of frame.now.by) (frame_of frame.now) (language.ActOn (act_of act) variable))
        (WentOn (frame_of frame.now))) }
    ensures world { cx.new.world ≡ cx.old.world }
{
    if let Some(task) = held_task(frame.held.as_slice(), variable) {
        act_on(cx, act, task)?;
    }
    Ok(())
}

/// Acts on a task.
#[tactic(auto, using(author_programs::proofs::Steps::steps))]
fn act_on<K>(cx: &mut Cx<'_, Script, K>, act: TaskAct, task: Task) -> Result<(), OutOfMemory>
    ensures came { OnOk result ((frame : meanings.Frame) →
        Comes cx.old cx.new (acted_on (act_of act) task.0 (goes_on frame)) (WentOn frame)) }
    ensures world { cx.new.world ≡ cx.old.world }
{
    match act {
        TaskAct::WakeUp => or_out_of_memory(cx.wake(task))?,
        TaskAct::Cancel => or_out_of_memory(cx.remove_future(task))?,
        TaskAct::Pause => or_out_of_memory(cx.set_active(task, false))?,
        TaskAct::Resume => or_out_of_memory(cx.set_active(task, true))?,
    }
    Ok(())
}
