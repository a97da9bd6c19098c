//! Statements that bind no name and have no statements in them.
ghost use Rattle.std.specs.Prelude.{◌≡◌, IfOk, option_map};
ghost use Rattle.serde_json.specs.View.{view};
ghost use Rattle.lang_sources.specs.Plain.{call_of, calling_of, word_said, word_at, given, named, provided, written, act_of, acted};
ghost use Rattle.lang_sources.specs.Readings.{plain_in};

use crate::forms::{Calling, Plain, Word};
use lang_expressions::{
    Names, call_at, expression_at, is_object_of, is_zero_at, kind_at, text_at, variable_at,
};
use lang_syntax::{Expression, HookTime, Simple, Statement, TaskAct};
use rt_values::{List, OutOfMemory, Text};
use serde_json::Value;
use std::alloc::Global;

fn call_of(calling: Calling, action: u64, arguments: List<Expression>) -> Statement
    ensures call { result ≡ call_of calling (action, arguments) }
{
    match calling {
        Calling::AtRemoval => Statement::CallAt {
            time: HookTime::AtRemoval,
            action,
            arguments,
        },
        Calling::BeforeRender => Statement::CallAt {
            time: HookTime::BeforeRender,
            action,
            arguments,
        },
        Calling::AfterRender => Statement::CallAt {
            time: HookTime::AfterRender,
            action,
            arguments,
        },
        Calling::AsEffect => Statement::Does(Simple::EffectOf { action, arguments }),
        Calling::OnceResolved => Statement::Does(Simple::OnResolved { action, arguments }),
    }
}

fn calling_of(
    alloc: Global,
    names: &Names,
    variables: &[Text],
    key: &str,
    calling: Calling,
    value: &Value,
) -> Result<Option<Statement>, OutOfMemory>
    ensures call { IfOk result (λ read. read
        ≡ calling_of names.now variables.now key.now calling (view value.now)) }
{
    if !is_object_of(value, &[key, "args"]) {
        return Ok(None);
    }
    let actions = names.actions.as_slice();
    let Some((action, arguments)) = call_at(alloc, names, variables, actions, value, key)? else {
        return Ok(None);
    };
    Ok(Some(call_of(calling, action, arguments)))
}

fn word_said(word: Word) -> Statement
    ensures said { result ≡ word_said word }
{
    match word {
        Word::Freeze => Statement::Does(Simple::FreezeBoundary),
        Word::Clear => Statement::Does(Simple::ClearError),
        Word::Stop => Statement::Does(Simple::Stop),
        Word::Prevent => Statement::Does(Simple::Prevent),
        Word::Stay => Statement::Does(Simple::Stay),
    }
}

fn word_at(key: &str, word: Word, value: &Value) -> Option<Statement>
    ensures word { result ≡ word_at key.now word (view value.now) }
{
    if is_object_of(value, &[key]) && is_zero_at(value, key) {
        Some(word_said(word))
    } else {
        None
    }
}

/// The expression at an object's only key.
fn given(
    alloc: Global,
    names: &Names,
    variables: &[Text],
    key: &str,
    value: &Value,
) -> Result<Option<Expression>, OutOfMemory>
    ensures given { IfOk result (λ read. read
        ≡ given names.now variables.now key.now (view value.now)) }
{
    if !is_object_of(value, &[key]) {
        return Ok(None);
    }
    expression_at(alloc, names, variables, value, key)
}

/// The variable that is named at an object's only key.
fn named(variables: &[Text], key: &str, value: &Value) -> Option<u64>
    ensures named { result ≡ named variables.now key.now (view value.now) }
{
    if !is_object_of(value, &[key]) {
        return None;
    }
    variable_at(variables, value, key)
}

fn provided(
    alloc: Global,
    names: &Names,
    variables: &[Text],
    value: &Value,
) -> Result<Option<Statement>, OutOfMemory>
    ensures provided { IfOk result (λ read. read
        ≡ provided names.now variables.now (view value.now)) }
{
    if !is_object_of(value, &["provide", "be"]) {
        return Ok(None);
    }
    let Some(kind) = kind_at(&names.kinds, value, "provide") else {
        return Ok(None);
    };
    let Some(given) = expression_at(alloc, names, variables, value, "be")? else {
        return Ok(None);
    };
    Ok(Some(Statement::Does(Simple::ProvideAs { kind, value: given })))
}

fn written(
    alloc: Global,
    names: &Names,
    variables: &[Text],
    value: &Value,
) -> Result<Option<Statement>, OutOfMemory>
    ensures written { IfOk result (λ read. read
        ≡ written names.now variables.now (view value.now)) }
{
    if !is_object_of(value, &["write", "be"]) {
        return Ok(None);
    }
    let Some(variable) = variable_at(variables, value, "write") else {
        return Ok(None);
    };
    let Some(given) = expression_at(alloc, names, variables, value, "be")? else {
        return Ok(None);
    };
    Ok(Some(Statement::Does(Simple::WriteTo {
        variable,
        value: given,
    })))
}

#[tactic(auto, unfolding(crate::specs::Plain::act_of))]
fn act_of(word: &str) -> Option<TaskAct>
    ensures act { result ≡ act_of word.now }
{
    if word == "wake" {
        Some(TaskAct::WakeUp)
    } else if word == "cancel" {
        Some(TaskAct::Cancel)
    } else if word == "pause" {
        Some(TaskAct::Pause)
    } else if word == "resume" {
        Some(TaskAct::Resume)
    } else {
        None
    }
}

fn acted(variables: &[Text], value: &Value) -> Option<Statement>
    ensures acted { result ≡ acted variables.now (view value.now) }
{
    if !is_object_of(value, &["act", "task"]) {
        return None;
    }
    let word = text_at(value, "act")?;
    let act = act_of(word)?;
    let variable = variable_at(variables, value, "task")?;
    Some(Statement::Does(Simple::ActOn { act, variable }))
}

/// The statement of a form that is plain.
#[tactic(auto, unfolding(crate::specs::Readings::plain_in))]
pub fn plain_of(
    alloc: Global,
    names: &Names,
    variables: &[Text],
    key: &str,
    plain: Plain,
    value: &Value,
) -> Result<Option<Statement>, OutOfMemory>
    ensures plain { IfOk result (λ read. read
        ≡ plain_in names.now variables.now key.now plain (view value.now)) }
{
    match plain {
        Plain::Calls(calling) => calling_of(alloc, names, variables, key, calling, value),
        Plain::Says(word) => Ok(word_at(key, word, value)),
        Plain::Mark => {
            let scope = given(alloc, names, variables, key, value)?;
            Ok(scope.map(|scope| Statement::Does(Simple::MarkScopeOf(scope))))
        }
        Plain::Throw => Ok(given(alloc, names, variables, key, value)?.map(Statement::ThrowText)),
        Plain::Fail => Ok(given(alloc, names, variables, key, value)?.map(Statement::FailWith)),
        Plain::Forget => {
            let cell = named(variables, key, value);
            Ok(cell.map(|cell| Statement::Does(Simple::Forget(cell))))
        }
        Plain::Suspend => Ok(named(variables, key, value).map(Statement::SuspendOn)),
        Plain::Provide => provided(alloc, names, variables, value),
        Plain::Write => written(alloc, names, variables, value),
        Plain::Act => Ok(acted(variables, value)),
    }
}
