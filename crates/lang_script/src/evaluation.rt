//! The values of expressions. Operands are evaluated from left to right.
ghost use Rattle.std.specs.Prelude.{◌≡◌, None, true, length, IfOk, option_map};
ghost use Rattle.run_records.specs.Records.{world_of};
ghost use Rattle.author_calls.specs.Calls.{call_of};
ghost use Rattle.tree_mirror.specs.Mirror.{error_of};
ghost use Rattle.rt_language.specs.Expressions as meanings;
ghost use Rattle.rt_language.specs.Syntax.{Cat};
ghost use Rattle.rt_language.specs.Values.{NoValue, value_of};
ghost use Rattle.rt_model.specs.Lists.{or_else};
ghost use Rattle.rt_model.specs.Program.{done, consume_context, error};
ghost use Rattle.lang_syntax.specs.Mirror.{literal_of, expression_of, arguments_of};
ghost use Rattle.author_bodies.specs.Comes.{Comes};
ghost use Rattle.lang_script.specs.Seen.{caller_of, SeesRenders, ScriptCall};

use crate::caller::{Caller, Frame, held_by, held_cell};
use crate::script::Script;
use author_bodies::or_out_of_memory;
use author_calls::Cx;
use lang_syntax::{Expression, Literal};
use lang_views::{
    Content, Props, Value, add, equal, is_absent, less, multiply, not, parse, put_text,
};
use rt_values::{List, OutOfMemory, Part, Task, Text};
use std::alloc::Global;
use tree_nodes::CapturedError;

/// What a literal is worth.
pub(crate) fn said(alloc: Global, literal: &Literal) -> Result<Value, OutOfMemory>
    ensures value { IfOk result (λ value. value ≡ value_of (literal_of literal.now)) }
{
    Ok(Value::new(match literal {
        Literal::Number(number) => Content::Number(*number),
        Literal::Text(text) => Content::Text(text.copy(alloc)?),
    }))
}

/// The value of an expression, where the variables hold these values.
#[cycle(evaluation)]
#[tactic(auto, using(crate::proofs::Expressions::evaluating))]
pub(crate) fn evaluate<K>(
    alloc: Global,
    cx: &mut Cx<'_, Script, K>,
    frame: &Frame<'_>,
    expression: &Expression,
) -> Result<Value, OutOfMemory>
    requires renders { SeesRenders (world_of cx.old.world) frame.now.by }
    ensures came { IfOk result (λ value. Comes cx.old cx.new
        (meanings.evaluate (caller_of frame.now.by) frame.now.held (expression_of expression.now)) value) }
    ensures world { cx.new.world ≡ cx.old.world }
{
    match expression {
        Expression::Say(literal) => said(alloc, literal),
        Expression::Get(variable) => held_by(alloc, frame.held.as_slice(), *variable),
        Expression::Read(variable) => read(alloc, cx, frame.held.as_slice(), *variable),
        Expression::Cat(parts) => joined(alloc, cx, frame, parts.as_slice()),
        Expression::Add(left, right) => {
            let left = evaluate(alloc, cx, frame, left.get())?;
            let right = evaluate(alloc, cx, frame, right.get())?;
            Ok(add(&left, &right))
        }
        Expression::Multiply(left, right) => {
            let left = evaluate(alloc, cx, frame, left.get())?;
            let right = evaluate(alloc, cx, frame, right.get())?;
            Ok(multiply(&left, &right))
        }
        Expression::Equal(left, right) => {
            let left = evaluate(alloc, cx, frame, left.get())?;
            let right = evaluate(alloc, cx, frame, right.get())?;
            Ok(equal(&left, &right))
        }
        Expression::Less(left, right) => {
            let left = evaluate(alloc, cx, frame, left.get())?;
            let right = evaluate(alloc, cx, frame, right.get())?;
            Ok(less(&left, &right))
        }
        Expression::Not(operand) => Ok(not(&evaluate(alloc, cx, frame, operand.get())?)),
        Expression::IsAbsent(operand) => Ok(is_absent(&evaluate(alloc, cx, frame, operand.get())?)),
        Expression::Parse(operand) => Ok(parse(&evaluate(alloc, cx, frame, operand.get())?)),
        Expression::If {
            test,
            chosen,
            other,
        } => {
            if evaluate(alloc, cx, frame, test.get())?.is_true() {
                Ok(evaluate(alloc, cx, frame, chosen.get())?)
            } else {
                Ok(evaluate(alloc, cx, frame, other.get())?)
            }
        }
        Expression::LookUp(kind) => look_up(alloc, cx, *kind),
        Expression::OwnScope => Ok(Value::counted(cx.current_scope_id().0)),
        Expression::Generation => Ok(generation(&frame.by)),
        Expression::NearestError => nearest_error(alloc, cx),
        Expression::Payload => payload(alloc, &frame.by),
        Expression::Me => Ok(task_or_none(cx.current_task())),
    }
}

/// The texts of the parts, joined.
#[cycle(evaluation)]
#[tactic(auto, using(crate::proofs::Expressions::evaluating))]
fn joined<K>(
    alloc: Global,
    cx: &mut Cx<'_, Script, K>,
    frame: &Frame<'_>,
    parts: &[Expression],
) -> Result<Value, OutOfMemory>
    requires renders { SeesRenders (world_of cx.old.world) frame.now.by }
    ensures came { IfOk result (λ value. Comes cx.old cx.new
        (meanings.evaluate (caller_of frame.now.by) frame.now.held (Cat (arguments_of parts.now))) value) }
    ensures world { cx.new.world ≡ cx.old.world }
{
    let mut text = String::new(alloc);
    for part in parts {
        let value = evaluate(alloc, cx, frame, part)?;
        put_text(&mut text, &value)?;
    }
    Ok(Value::new(Content::Text(Text::from_string(text))))
}

/// The values of expressions.
#[tactic(auto, using(crate::proofs::Expressions::evaluating))]
pub(crate) fn evaluate_all<K>(
    alloc: Global,
    cx: &mut Cx<'_, Script, K>,
    frame: &Frame<'_>,
    expressions: &[Expression],
) -> Result<List<Value>, OutOfMemory>
    requires renders { SeesRenders (world_of cx.old.world) frame.now.by }
    ensures came { IfOk result (λ values. Comes cx.old cx.new
        (meanings.evaluate_all (caller_of frame.now.by) frame.now.held (arguments_of expressions.now)) values) }
    ensures world { cx.new.world ≡ cx.old.world }
{
    let mut values = List::with_room(alloc, expressions.len())?;
    for expression in expressions {
        let value = evaluate(alloc, cx, frame, expression)?;
        values.push(value)?;
    }
    Ok(values)
}

/// What a component is handed, whose params have the values of these expressions. One alone takes
/// no list.
#[tactic(auto, using(crate::proofs::Expressions::evaluating))]
pub(crate) fn props_of<K>(
    alloc: Global,
    cx: &mut Cx<'_, Script, K>,
    frame: &Frame<'_>,
    expressions: &[Expression],
) -> Result<Props, OutOfMemory>
    requires renders { SeesRenders (world_of cx.old.world) frame.now.by }
    ensures came { IfOk result (λ props. Comes cx.old cx.new
        (meanings.evaluate_all (caller_of frame.now.by) frame.now.held (arguments_of expressions.now)) props) }
    ensures world { cx.new.world ≡ cx.old.world }
{
    if is_one(expressions) {
        let value = found_or_evaluated(alloc, cx, frame, &expressions[0])?;
        let props = Props::one(alloc, value)?;
        return Ok(props);
    }
    let values = evaluate_all(alloc, cx, frame, expressions)?;
    let props = Props::new(alloc, values)?;
    Ok(props)
}

/// The value of an expression. That of a variable is looked up at once.
#[tactic(auto, using(crate::proofs::Expressions::evaluating))]
fn found_or_evaluated<K>(
    alloc: Global,
    cx: &mut Cx<'_, Script, K>,
    frame: &Frame<'_>,
    expression: &Expression,
) -> Result<Value, OutOfMemory>
    requires renders { SeesRenders (world_of cx.old.world) frame.now.by }
    ensures came { IfOk result (λ value. Comes cx.old cx.new
        (meanings.evaluate (caller_of frame.now.by) frame.now.held (expression_of expression.now)) value) }
    ensures world { cx.new.world ≡ cx.old.world }
{
    match expression {
        Expression::Get(variable) => held_by(alloc, frame.held.as_slice(), *variable),
        _ => evaluate(alloc, cx, frame, expression),
    }
}

/// Whether there is one expression.
fn is_one(expressions: &[Expression]) -> bool
    ensures { result ≡ true → length expressions.now ≡ 1 }
{
    expressions.len() == 1
}

/// The value of the cell that a variable holds, none where it holds no cell or the cell is gone.
#[tactic(auto, using(crate::proofs::Steps::reading))]
fn read<K>(
    alloc: Global,
    cx: &mut Cx<'_, Script, K>,
    held: &[Value],
    variable: u64,
) -> Result<Value, OutOfMemory>
    ensures came { IfOk result (λ value. Comes cx.old cx.new
        (meanings.read_from (meanings.held_by held.now variable)) value) }
    ensures world { cx.new.world ≡ cx.old.world }
{
    match held_cell(held, variable) {
        Some(cell) => {
            let found = or_out_of_memory(cx.read(alloc, cell))?;
            Ok(or_none(found))
        }
        None => Ok(Value::none()),
    }
}

/// What the nearest scope provides under a kind, none where none does. A kind of context that isn't
/// below 2^32 finds no memory: there is none for so many.
#[tactic(auto, using(crate::proofs::Expressions::evaluating))]
fn look_up<K>(alloc: Global, cx: &mut Cx<'_, Script, K>, kind: u64) -> Result<Value, OutOfMemory>
    ensures came { IfOk result (λ value. Comes cx.old cx.new
        (consume_context None kind (λ found. done (or_else NoValue found))) value) }
    ensures world { cx.new.world ≡ cx.old.world }
{
    let Ok(kind) = u32::try_from(kind) else {
        return Err(OutOfMemory);
    };
    let found = or_out_of_memory(cx.try_consume_context(alloc, kind))?;
    Ok(or_none(found))
}

/// The text of the nearest error, none where there is none.
#[tactic(auto, using(crate::proofs::Expressions::evaluating))]
fn nearest_error<K>(alloc: Global, cx: &mut Cx<'_, Script, K>) -> Result<Value, OutOfMemory>
    ensures came { IfOk result (λ value. Comes cx.old cx.new
        (error (λ found. done (meanings.error_text found))) value) }
    ensures world { cx.new.world ≡ cx.old.world }
{
    let error = or_out_of_memory(cx.error(alloc))?;
    Ok(error_text(error))
}

/// How often the body has answered a tree, none where it is no body that asks.
#[tactic(auto, using(author_programs::proofs::Steps::steps))]
fn generation(by: &Caller<'_>) -> Value
    ensures came { (before : ScriptCall) → SeesRenders (world_of before.world) by.now →
        Comes before before (meanings.generation_for (caller_of by.now)) result }
{
    match by {
        Caller::Body { generation } => Value::counted(*generation),
        Caller::Listener { .. } => Value::none(),
        Caller::Other => Value::none(),
    }
}

/// What the event carries, none where no listener asks.
fn payload(alloc: Global, by: &Caller<'_>) -> Result<Value, OutOfMemory>
    ensures value { IfOk result (λ value. value ≡ meanings.payload_for (caller_of by.now)) }
{
    match by {
        Caller::Listener { payload } => payload.copy(alloc),
        Caller::Body { .. } => Ok(Value::none()),
        Caller::Other => Ok(Value::none()),
    }
}

/// The text of an error, none where there is none.
fn error_text(error: Option<CapturedError>) -> Value
    ensures { result ≡ meanings.error_text (option_map error_of error) }
{
    match error {
        Some(error) => Value::new(Content::Text(error.text)),
        None => Value::none(),
    }
}

/// A task, or none.
fn task_or_none(task: Option<Task>) -> Value
    ensures { result ≡ meanings.task_or_none (option_map (λ task. task.0) task) }
{
    match task {
        Some(task) => Value::task(task.0),
        None => Value::none(),
    }
}

/// A value, or none.
fn or_none(value: Option<Value>) -> Value
    ensures { result ≡ or_else NoValue value }
{
    match value {
        Some(value) => value,
        None => Value::none(),
    }
}
