//! What the statements of a body do: they may keep hooks, and may end the body early.
ghost use Rattle.std.specs.Prelude.{◌≡◌, ◌-◌, ◌<◌, true, not, IfOk, IfErr, OnOk};
ghost use Rattle.rt_model.specs.Program.{hooked, hook_stands};
ghost use Rattle.rt_model.specs.World.{HookEffect};
ghost use Rattle.run_records.specs.Records.{world_of};
ghost use Rattle.author_calls.specs.Calls.{call_of};
ghost use Rattle.author_calls.specs.Hooks.{is_changed, standing, HookRefused};
ghost use Rattle.rt_language.specs.Expressions.{evaluate_all};
ghost use Rattle.rt_language.specs.Statements as meanings;
ghost use Rattle.rt_language.specs.Statements.{hook_with, task_hook, time_kind};
ghost use Rattle.rt_language.specs.Syntax as language;
ghost use Rattle.lang_syntax.specs.Mirror.{expression_of, arguments_of, statement_of, statements_of, spawned_of, time_of};
ghost use Rattle.author_bodies.specs.Comes.{Comes};
ghost use Rattle.lang_script.specs.Seen.{caller_of, IsBody, SeesRenders, frame_of, outcome_of, Knows, Follows};

use crate::caller::{Frame, Outcome, held_task};
use crate::derived::use_derived;
use crate::evaluation::{evaluate, evaluate_all};
use crate::memos::CELL;
use crate::running::{ask, spawn, throw};
use crate::script::Script;
use author_bodies::unless_refused;
use author_calls::BodyCx;
use lang_syntax::{Expression, HookTime, SpawnKind, Statement};
use lang_views::{Doing, Standing, Value, text_of};
use rt_values::OutOfMemory;
use run_records::CxFault;
use std::alloc::Global;
use tree_nodes::RenderError;

/// The kind of the hook that keeps a task.
const TASK: u32 = 4;

/// Runs the statements of a body, one after another.
#[cycle(body)]
#[tactic(auto, using(crate::proofs::Statements::dispatching))]
pub(crate) fn run_body(
    alloc: Global,
    cx: &mut BodyCx<'_, Script>,
    frame: &mut Frame<'_>,
    statements: &[Statement],
) -> Result<Outcome, OutOfMemory>
    requires body { IsBody (world_of cx.old.world) frame.old.by }
    ensures came { IfOk result (λ o. Knows o cx.new (Comes cx.old cx.new
        (meanings.run_statements (caller_of frame.old.by) (frame_of frame.old) (statements_of statements.now))
        (outcome_of o (frame_of frame.new)))) }
    ensures world { cx.new.world ≡ cx.old.world }
    ensures follows { OnOk result (Follows frame.old frame.new) }
{
    for statement in statements {
        match perform(alloc, cx, frame, statement)? {
            Outcome::WentOn => {}
            outcome => return Ok(outcome),
        }
    }
    Ok(Outcome::WentOn)
}

/// Does one statement of a body.
#[cycle(body)]
#[tactic(auto, using(crate::proofs::Statements::dispatching))]
fn perform(
    alloc: Global,
    cx: &mut BodyCx<'_, Script>,
    frame: &mut Frame<'_>,
    statement: &Statement,
) -> Result<Outcome, OutOfMemory>
    requires body { IsBody (world_of cx.old.world) frame.old.by }
    ensures came { IfOk result (λ o. Knows o cx.new (Comes cx.old cx.new
        (meanings.perform (caller_of frame.old.by) (frame_of frame.old) (statement_of statement.now))
        (outcome_of o (frame_of frame.new)))) }
    ensures world { cx.new.world ≡ cx.old.world }
    ensures follows { OnOk result (Follows frame.old frame.new) }
{
    match statement {
        Statement::Does(simple) => {
            ask(alloc, cx, frame, simple)?;
            Ok(Outcome::WentOn)
        }
        Statement::When { test, statements } => {
            Ok(run_when(alloc, cx, frame, statements.as_slice(), test)?)
        }
        Statement::UseCell(first) => Ok(use_cell(alloc, cx, frame, first)?),
        Statement::UseHook(first) => Ok(use_hook(alloc, cx, frame, first)?),
        Statement::UseDerived(formula) => Ok(use_derived(alloc, cx, frame, formula)?),
        Statement::SpawnTask {
            task,
            arguments,
            kind,
        } => Ok(use_task(alloc, cx, frame, *task, arguments.as_slice(), *kind)?),
        Statement::CallAt {
            time,
            action,
            arguments,
        } => Ok(call_at(alloc, cx, frame, *time, *action, arguments.as_slice())?),
        Statement::FailWith(text) => Ok(fail(alloc, cx, frame, text)?),
        Statement::SuspendOn(variable) => Ok(suspend(cx, frame, *variable)),
        Statement::ThrowText(text) => Ok(throw(alloc, cx, frame, text)?),
    }
}

/// Runs statements where a test is true. Names that are bound in them end with them.
#[cycle(body)]
#[tactic(auto, using(crate::proofs::Statements::whens))]
fn run_when(
    alloc: Global,
    cx: &mut BodyCx<'_, Script>,
    frame: &mut Frame<'_>,
    statements: &[Statement],
    test: &Expression,
) -> Result<Outcome, OutOfMemory>
    requires body { IsBody (world_of cx.old.world) frame.old.by }
    ensures came { IfOk result (λ o. Knows o cx.new (Comes cx.old cx.new
        (meanings.perform (caller_of frame.old.by) (frame_of frame.old)
        (language.When (expression_of test.now) (statements_of statements.now)))
        (outcome_of o (frame_of frame.new)))) }
    ensures world { cx.new.world ≡ cx.old.world }
    ensures follows { OnOk result (Follows frame.old frame.new) }
{
    let bound = frame.held.len();
    if !evaluate(alloc, cx, frame, test)?.is_true() {
        return Ok(Outcome::WentOn);
    }
    let outcome = run_body(alloc, cx, frame, statements)?;
    frame.keep(alloc, bound);
    Ok(outcome)
}

/// Binds what a hook of a value's kind keeps; on first use it keeps this value.
#[tactic(auto, using(crate::proofs::Hooks::bodies))]
fn use_hook(
    alloc: Global,
    cx: &mut BodyCx<'_, Script>,
    frame: &mut Frame<'_>,
    first: &Expression,
) -> Result<Outcome, OutOfMemory>
    requires body { IsBody (world_of cx.old.world) frame.old.by }
    ensures came { IfOk result (λ o. Knows o cx.new (Comes cx.old cx.new
        (meanings.perform (caller_of frame.old.by) (frame_of frame.old) (language.UseHook (expression_of first.now)))
        (outcome_of o (frame_of frame.new)))) }
    ensures world { cx.new.world ≡ cx.old.world }
    ensures follows { OnOk result (Follows frame.old frame.new) }
{
    let value = evaluate(alloc, cx, frame, first)?;
    Ok(keep(alloc, cx, frame, value.hook_kind(), value)?)
}

/// Binds what a hook keeps; on first use it keeps this value.
#[tactic(auto, using(crate::proofs::Hooks::bodies))]
fn keep(
    alloc: Global,
    cx: &mut BodyCx<'_, Script>,
    frame: &mut Frame<'_>,
    kind: u32,
    first: Value,
) -> Result<Outcome, OutOfMemory>
    requires kind { kind < u32.MAX - 2 }
    ensures came { IfOk result (λ o. Knows o cx.new (Comes cx.old cx.new
        (hook_with (frame_of frame.old) kind first) (outcome_of o (frame_of frame.new)))) }
    ensures world { cx.new.world ≡ cx.old.world }
    ensures follows { OnOk result (Follows frame.old frame.new) }
{
    match unless_refused(cx.use_hook(alloc, kind, first))? {
        Some(kept) => {
            frame.bind(kept)?;
            Ok(Outcome::WentOn)
        }
        None => Ok(Outcome::Refused),
    }
}

/// Binds a cell of the scope, which is made on first use.
#[tactic(auto, using(crate::proofs::Hooks::bodies))]
fn use_cell(
    alloc: Global,
    cx: &mut BodyCx<'_, Script>,
    frame: &mut Frame<'_>,
    first: &Expression,
) -> Result<Outcome, OutOfMemory>
    requires body { IsBody (world_of cx.old.world) frame.old.by }
    ensures came { IfOk result (λ o. Knows o cx.new (Comes cx.old cx.new
        (meanings.perform (caller_of frame.old.by) (frame_of frame.old) (language.UseCell (expression_of first.now)))
        (outcome_of o (frame_of frame.new)))) }
    ensures world { cx.new.world ≡ cx.old.world }
    ensures follows { OnOk result (Follows frame.old frame.new) }
{
    if !cx.hook_is_new() {
        return Ok(keep(alloc, cx, frame, CELL, Value::none())?);
    }
    let value = evaluate(alloc, cx, frame, first)?;
    match unless_refused(cx.new_cell(value))? {
        Some(cell) => Ok(keep(alloc, cx, frame, CELL, Value::cell(cell))?),
        None => Ok(Outcome::Refused),
    }
}

/// Binds a task, which is spawned on first use.
#[tactic(auto, using(crate::proofs::Hooks::first_uses))]
fn use_task(
    alloc: Global,
    cx: &mut BodyCx<'_, Script>,
    frame: &mut Frame<'_>,
    task: u64,
    arguments: &[Expression],
    kind: SpawnKind,
) -> Result<Outcome, OutOfMemory>
    requires body { IsBody (world_of cx.old.world) frame.old.by }
    ensures came { IfOk result (λ o. Knows o cx.new (Comes cx.old cx.new
        (meanings.perform (caller_of frame.old.by) (frame_of frame.old)
        (language.SpawnTask task (arguments_of arguments.now) (spawned_of kind)))
        (outcome_of o (frame_of frame.new)))) }
    ensures world { cx.new.world ≡ cx.old.world }
    ensures follows { OnOk result (Follows frame.old frame.new) }
{
    if !cx.hook_is_new() {
        return Ok(keep(alloc, cx, frame, TASK, Value::none())?);
    }
    Ok(keep_spawned(alloc, cx, frame, task, arguments, kind)?)
}

/// Spawns a task with the values of its arguments, and binds the hook that keeps it.
#[tactic(auto, using(crate::proofs::Hooks::bodies))]
fn keep_spawned(
    alloc: Global,
    cx: &mut BodyCx<'_, Script>,
    frame: &mut Frame<'_>,
    task: u64,
    arguments: &[Expression],
    kind: SpawnKind,
) -> Result<Outcome, OutOfMemory>
    requires body { IsBody (world_of cx.old.world) frame.old.by }
    ensures came { IfOk result (λ o. Knows o cx.new (Comes cx.old cx.new
        (task_hook (frame_of frame.old) task (spawned_of kind)
        (evaluate_all (caller_of frame.old.by) frame.old.held (arguments_of arguments.now)) true)
        (outcome_of o (frame_of frame.new)))) }
    ensures world { cx.new.world ≡ cx.old.world }
    ensures follows { OnOk result (Follows frame.old frame.new) }
{
    let arguments = evaluate_all(alloc, cx, frame, arguments)?;
    match unless_refused(spawn(cx, Standing::new(task, arguments), kind))? {
        Some(spawned) => Ok(keep(alloc, cx, frame, TASK, Value::task(spawned.0))?),
        None => Ok(Outcome::Refused),
    }
}

/// Keeps an action that is done at a time of the scope.
#[tactic(auto, using(crate::proofs::Hooks::bodies))]
fn call_at(
    alloc: Global,
    cx: &mut BodyCx<'_, Script>,
    frame: &Frame<'_>,
    time: HookTime,
    action: u64,
    arguments: &[Expression],
) -> Result<Outcome, OutOfMemory>
    requires renders { SeesRenders (world_of cx.old.world) frame.now.by }
    ensures came { IfOk result (λ o. Knows o cx.new (Comes cx.old cx.new
        (meanings.perform (caller_of frame.now.by) (frame_of frame.now)
        (language.CallAt (time_of time) action (arguments_of arguments.now)))
        (outcome_of o (frame_of frame.now)))) }
    ensures world { cx.new.world ≡ cx.old.world }
{
    let arguments = evaluate_all(alloc, cx, frame, arguments)?;
    match unless_refused(use_at(cx, time, Doing::new(action, arguments)))? {
        Some(()) => Ok(Outcome::WentOn),
        None => Ok(Outcome::Refused),
    }
}

/// Keeps an action in the hook of a time.
fn use_at(cx: &mut BodyCx<'_, Script>, time: HookTime, action: Doing) -> Result<(), CxFault>
    ensures call { OnOk result (call_of cx.new
        ≡ hooked (world_of cx.old.world) (call_of cx.old) (time_kind (time_of time))
        (HookEffect (time_kind (time_of time)) action) (standing cx.old)) }
    ensures changed { is_changed result ≡ not (hook_stands (time_kind (time_of time)) (standing cx.old)) }
    ensures err { IfErr result (HookRefused (time_kind (time_of time)) cx.old cx.new) }
    ensures world { cx.new.world ≡ cx.old.world }
{
    match time {
        HookTime::AtRemoval => cx.use_drop(action),
        HookTime::BeforeRender => cx.use_before_render(action),
        HookTime::AfterRender => cx.use_after_render(action),
    }
}

/// Ends the body with an error of this text.
#[tactic(auto, using(crate::proofs::Hooks::bodies))]
fn fail(
    alloc: Global,
    cx: &mut BodyCx<'_, Script>,
    frame: &Frame<'_>,
    text: &Expression,
) -> Result<Outcome, OutOfMemory>
    requires renders { SeesRenders (world_of cx.old.world) frame.now.by }
    ensures came { IfOk result (λ o. Knows o cx.new (Comes cx.old cx.new
        (meanings.perform (caller_of frame.now.by) (frame_of frame.now) (language.FailWith (expression_of text.now)))
        (outcome_of o (frame_of frame.now)))) }
    ensures world { cx.new.world ≡ cx.old.world }
{
    let value = evaluate(alloc, cx, frame, text)?;
    let text = text_of(alloc, &value)?;
    match unless_refused(cx.captured(text))? {
        Some(error) => Ok(Outcome::Ended(Err(RenderError::Error(error)))),
        None => Ok(Outcome::Refused),
    }
}

/// Ends the body with a suspension on the task that a variable holds, where it holds one.
#[tactic(auto, using(crate::proofs::Hooks::bodies))]
fn suspend(cx: &BodyCx<'_, Script>, frame: &Frame<'_>, variable: u64) -> Outcome
    ensures came { Knows result cx.now (Comes cx.now cx.now
        (meanings.perform (caller_of frame.now.by) (frame_of frame.now) (language.SuspendOn variable))
        (outcome_of result (frame_of frame.now))) }
{
    match held_task(frame.held.as_slice(), variable) {
        Some(task) => Outcome::Ended(cx.suspend(task)),
        None => Outcome::WentOn,
    }
}
