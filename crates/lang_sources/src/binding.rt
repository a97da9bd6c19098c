//! Statements that bind a name.
ghost use Rattle.std.specs.Prelude.{◌≡◌, IfOk};
ghost use Rattle.serde_json.specs.View.{view};
ghost use Rattle.lang_sources.specs.Binding.{bound_by, kept_to, memo_of, loaded, resource_of, spawn_word, spawn_kind, with_bound};
ghost use Rattle.lang_sources.specs.Readings.{binding_in, spawned_in};

use crate::forms::Binder;
use lang_expressions::{Names, call_at, expression_at, is_object_of, text_at, whole_at};
use lang_syntax::{Derived, Expression, Formula, Simple, SpawnKind, Statement, derived_looks};
use rt_values::{OutOfMemory, Text, copy_slice};
use serde_json::Value;
use std::alloc::Global;

/// The name at one key of an object, and the expression at its only other key.
fn bound_by(
    alloc: Global,
    names: &Names,
    variables: &[Text],
    name_key: &str,
    key: &str,
    value: &Value,
) -> Result<Option<(Text, Expression)>, OutOfMemory>
    ensures bound { IfOk result (λ read. read
        ≡ bound_by names.now variables.now name_key.now key.now (view value.now)) }
{
    if !is_object_of(value, &[name_key, key]) {
        return Ok(None);
    }
    let Some(name) = text_at(value, name_key) else {
        return Ok(None);
    };
    let Some(given) = expression_at(alloc, names, variables, value, key)? else {
        return Ok(None);
    };
    Ok(Some((Text::from_str(alloc, name)?, given)))
}

/// A memo or a resource behind its name, where it only looks.
fn kept_to(
    alloc: Global,
    name: Text,
    derived: Derived,
) -> Result<Option<(Text, Statement)>, OutOfMemory>
    ensures kept { IfOk result (λ read. read ≡ kept_to name derived) }
{
    if !derived_looks(&derived) {
        return Ok(None);
    }
    let formula = Formula::new(alloc, derived)?;
    Ok(Some((name, Statement::UseDerived(formula))))
}

/// A memo, behind its name.
fn memo_of(
    alloc: Global,
    names: &Names,
    variables: &[Text],
    value: &Value,
) -> Result<Option<(Text, Statement)>, OutOfMemory>
    ensures memo { IfOk result (λ read. read ≡ memo_of names.now variables.now (view value.now)) }
{
    let Some((name, given)) = bound_by(alloc, names, variables, "memo", "be", value)? else {
        return Ok(None);
    };
    kept_to(alloc, name, Derived::Value(given))
}

/// The expression at `be`, with one name more in reach.
fn loaded(
    alloc: Global,
    names: &Names,
    variables: &[Text],
    last: &str,
    value: &Value,
) -> Result<Option<Expression>, OutOfMemory>
    ensures loaded { IfOk result (λ read. read
        ≡ loaded names.now variables.now last.now (view value.now)) }
{
    let mut bound = copy_slice(alloc, variables)?;
    bound.push(Text::from_str(alloc, last)?)?;
    expression_at(alloc, names, bound.as_slice(), value, "be")
}

/// A resource, behind its name.
fn resource_of(
    alloc: Global,
    names: &Names,
    variables: &[Text],
    value: &Value,
) -> Result<Option<(Text, Statement)>, OutOfMemory>
    ensures resource { IfOk result (λ read. read
        ≡ resource_of names.now variables.now (view value.now)) }
{
    if !is_object_of(value, &["resource", "key", "waits", "as", "be"]) {
        return Ok(None);
    }
    let Some(name) = text_at(value, "resource") else {
        return Ok(None);
    };
    let Some(last) = text_at(value, "as") else {
        return Ok(None);
    };
    let Some(waits) = whole_at(value, "waits") else {
        return Ok(None);
    };
    let Some(key) = expression_at(alloc, names, variables, value, "key")? else {
        return Ok(None);
    };
    let Some(given) = loaded(alloc, names, variables, last, value)? else {
        return Ok(None);
    };
    let name = Text::from_str(alloc, name)?;
    kept_to(
        alloc,
        name,
        Derived::Load {
            key,
            waits,
            value: given,
        },
    )
}

/// What binds a name to what expressions give, behind that name.
#[tactic(auto, unfolding(crate::specs::Readings::binding_in))]
pub fn binding(
    alloc: Global,
    names: &Names,
    variables: &[Text],
    binder: Binder,
    value: &Value,
) -> Result<Option<(Text, Statement)>, OutOfMemory>
    ensures binding { IfOk result (λ read. read
        ≡ binding_in names.now variables.now binder (view value.now)) }
{
    match binder {
        Binder::Let => {
            let bound = bound_by(alloc, names, variables, "let", "be", value)?;
            Ok(bound.map(|(name, given)| (name, Statement::Does(Simple::Let(given)))))
        }
        Binder::Cell => {
            let bound = bound_by(alloc, names, variables, "cell", "init", value)?;
            Ok(bound.map(|(name, first)| (name, Statement::UseCell(first))))
        }
        Binder::Hook => {
            let bound = bound_by(alloc, names, variables, "hook", "init", value)?;
            Ok(bound.map(|(name, first)| (name, Statement::UseHook(first))))
        }
        Binder::Memo => memo_of(alloc, names, variables, value),
        Binder::Resource => resource_of(alloc, names, variables, value),
    }
}

#[tactic(auto, unfolding(crate::specs::Binding::spawn_word))]
fn spawn_word(word: &str) -> Option<SpawnKind>
    ensures kind { result ≡ spawn_word word.now }
{
    if word == "client" {
        Some(SpawnKind::Client)
    } else if word == "isomorphic" {
        Some(SpawnKind::Isomorphic)
    } else if word == "forever" {
        Some(SpawnKind::Forever)
    } else {
        None
    }
}

fn spawn_kind(value: &Value) -> Option<SpawnKind>
    ensures kind { result ≡ spawn_kind (view value.now) }
{
    match value.get("as") {
        None => Some(SpawnKind::Client),
        Some(found) => match found.as_str() {
            Some(word) => spawn_word(word),
            None => None,
        },
    }
}

/// What spawns a task, behind the name that it binds.
#[tactic(auto, unfolding(crate::specs::Readings::spawned_in))]
pub fn spawned(
    alloc: Global,
    names: &Names,
    variables: &[Text],
    value: &Value,
) -> Result<Option<(Text, Statement)>, OutOfMemory>
    ensures spawned { IfOk result (λ read. read
        ≡ spawned_in names.now variables.now (view value.now)) }
{
    if !is_object_of(value, &["spawn", "task", "args", "as"]) {
        return Ok(None);
    }
    let Some(name) = text_at(value, "spawn") else {
        return Ok(None);
    };
    let Some(kind) = spawn_kind(value) else {
        return Ok(None);
    };
    let tasks = names.tasks.as_slice();
    let Some((task, arguments)) = call_at(alloc, names, variables, tasks, value, "task")? else {
        return Ok(None);
    };
    let name = Text::from_str(alloc, name)?;
    Ok(Some((
        name,
        Statement::SpawnTask {
            task,
            arguments,
            kind,
        },
    )))
}

/// The names in reach behind a statement that binds this one, or none.
pub fn bind(variables: Vec<Text>, name: Option<Text>) -> Result<Vec<Text>, OutOfMemory>
    ensures bound { IfOk result (λ after. after.items ≡ with_bound variables.items name) }
{
    match name {
        None => Ok(variables),
        Some(name) => {
            let mut variables = variables;
            variables.push(name)?;
            Ok(variables)
        }
    }
}
