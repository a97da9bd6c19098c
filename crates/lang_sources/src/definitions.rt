//! Components, actions and tasks.
ghost use Rattle.std.specs.Prelude.{◌≡◌, IfOk, option_map};
ghost use Rattle.serde_json.specs.View.{view, items_view, members_view};
ghost use Rattle.lang_expressions.specs.Lists.{read_each, read_members};
ghost use Rattle.lang_sources.specs.Definitions.{component_in, action_in, step_in, task_in, components_at, actions_at, tasks_at};

use crate::forms::Place;
use crate::signatures::params_in;
use crate::statements::read_block;
use lang_expressions::{Names, is_object_of, list_at, list_or_empty, read_view};
use lang_syntax::{ComponentSource, OutsideStatements};
use rt_values::{List, OutOfMemory, Text, copy_slice};
use serde_json::{Map, Value};
use std::alloc::Global;

#[tactic(auto, unfolding(crate::specs::Definitions::component_in))]
fn component(
    alloc: Global,
    names: &Names,
    value: &Value,
) -> Result<Option<ComponentSource>, OutOfMemory>
    ensures component { IfOk result (λ read. read ≡ component_in names.now (view value.now)) }
{
    if !is_object_of(value, &["params", "do", "view"]) {
        return Ok(None);
    }
    let Some(params) = params_in(alloc, value)? else {
        return Ok(None);
    };
    let Some(values) = list_or_empty(value, "do") else {
        return Ok(None);
    };
    let Some((bound, statements)) = read_block(alloc, names, Place::Body, params, values)? else {
        return Ok(None);
    };
    let Some(values) = list_at(value, "view") else {
        return Ok(None);
    };
    let Some(view) = read_view(alloc, names, &bound, values)? else {
        return Ok(None);
    };
    Ok(Some(ComponentSource {
        statements: List::from_vec(statements),
        view: List::from_vec(view),
    }))
}

#[tactic(auto, unfolding(crate::specs::Definitions::action_in))]
fn action(
    alloc: Global,
    names: &Names,
    value: &Value,
) -> Result<Option<OutsideStatements>, OutOfMemory>
    ensures action { IfOk result (λ read. read ≡ action_in names.now (view value.now)) }
{
    if !is_object_of(value, &["params", "do"]) {
        return Ok(None);
    }
    let Some(params) = params_in(alloc, value)? else {
        return Ok(None);
    };
    let Some(values) = list_at(value, "do") else {
        return Ok(None);
    };
    match read_block(alloc, names, Place::Action, params, values)? {
        Some((_bound, statements)) => Ok(Some(OutsideStatements {
            statements: List::from_vec(statements),
        })),
        None => Ok(None),
    }
}

#[tactic(auto, unfolding(crate::specs::Definitions::step_in))]
fn step(
    alloc: Global,
    names: &Names,
    params: &[Text],
    value: &Value,
) -> Result<Option<OutsideStatements>, OutOfMemory>
    ensures step { IfOk result (λ read. read ≡ step_in names.now params.now (view value.now)) }
{
    let Some(values) = value.as_array() else {
        return Ok(None);
    };
    let params = copy_slice(alloc, params)?;
    match read_block(alloc, names, Place::Step, params, values)? {
        Some((_bound, statements)) => Ok(Some(OutsideStatements {
            statements: List::from_vec(statements),
        })),
        None => Ok(None),
    }
}

fn steps(
    alloc: Global,
    names: &Names,
    params: &[Text],
    values: &[Value],
) -> Result<Option<Vec<OutsideStatements>>, OutOfMemory>
    ensures steps { IfOk result (λ read. option_map (λ kept. kept.items) read
        ≡ read_each (step_in names.now params.now) (items_view values.now)) }
{
    let mut read = Vec::new(alloc);
    for value in values {
        let Some(one) = step(alloc, names, params, value)? else {
            return Ok(None);
        };
        read.push(one)?;
    }
    Ok(Some(read))
}

#[tactic(auto, unfolding(crate::specs::Definitions::task_in))]
fn task(
    alloc: Global,
    names: &Names,
    value: &Value,
) -> Result<Option<List<OutsideStatements>>, OutOfMemory>
    ensures task { IfOk result (λ read. read ≡ task_in names.now (view value.now)) }
{
    if !is_object_of(value, &["params", "steps"]) {
        return Ok(None);
    }
    let Some(params) = params_in(alloc, value)? else {
        return Ok(None);
    };
    let Some(values) = list_at(value, "steps") else {
        return Ok(None);
    };
    match steps(alloc, names, &params, values)? {
        Some(read) => Ok(Some(List::from_vec(read))),
        None => Ok(None),
    }
}

fn components(
    alloc: Global,
    names: &Names,
    members: &Map<String, Value>,
) -> Result<Option<Vec<ComponentSource>>, OutOfMemory>
    ensures components { IfOk result (λ read. option_map (λ kept. kept.items) read
        ≡ read_members (λ _. component_in names.now) (members_view members.now.entries)) }
{
    let mut read = Vec::new(alloc);
    for (_name, value) in members.iter() {
        let Some(one) = component(alloc, names, value)? else {
            return Ok(None);
        };
        read.push(one)?;
    }
    Ok(Some(read))
}

fn actions(
    alloc: Global,
    names: &Names,
    members: &Map<String, Value>,
) -> Result<Option<Vec<OutsideStatements>>, OutOfMemory>
    ensures actions { IfOk result (λ read. option_map (λ kept. kept.items) read
        ≡ read_members (λ _. action_in names.now) (members_view members.now.entries)) }
{
    let mut read = Vec::new(alloc);
    for (_name, value) in members.iter() {
        let Some(one) = action(alloc, names, value)? else {
            return Ok(None);
        };
        read.push(one)?;
    }
    Ok(Some(read))
}

fn tasks(
    alloc: Global,
    names: &Names,
    members: &Map<String, Value>,
) -> Result<Option<Vec<List<OutsideStatements>>>, OutOfMemory>
    ensures tasks { IfOk result (λ read. option_map (λ kept. kept.items) read
        ≡ read_members (λ _. task_in names.now) (members_view members.now.entries)) }
{
    let mut read = Vec::new(alloc);
    for (_name, value) in members.iter() {
        let Some(one) = task(alloc, names, value)? else {
            return Ok(None);
        };
        read.push(one)?;
    }
    Ok(Some(read))
}

/// The components of a source, in order of name.
#[tactic(auto, unfolding(crate::specs::Definitions::components_at))]
pub fn components_at(
    alloc: Global,
    names: &Names,
    value: &Value,
) -> Result<Option<Vec<ComponentSource>>, OutOfMemory>
    ensures components { IfOk result (λ read. option_map (λ kept. kept.items) read
        ≡ components_at names.now (view value.now)) }
{
    match value.get("components") {
        None => Ok(Some(Vec::new(alloc))),
        Some(found) => match found.as_object() {
            Some(members) => components(alloc, names, members),
            None => Ok(None),
        },
    }
}

/// The actions of a source, in order of name.
#[tactic(auto, unfolding(crate::specs::Definitions::actions_at))]
pub fn actions_at(
    alloc: Global,
    names: &Names,
    value: &Value,
) -> Result<Option<Vec<OutsideStatements>>, OutOfMemory>
    ensures actions { IfOk result (λ read. option_map (λ kept. kept.items) read
        ≡ actions_at names.now (view value.now)) }
{
    match value.get("actions") {
        None => Ok(Some(Vec::new(alloc))),
        Some(found) => match found.as_object() {
            Some(members) => actions(alloc, names, members),
            None => Ok(None),
        },
    }
}

/// The tasks of a source, in order of name.
#[tactic(auto, unfolding(crate::specs::Definitions::tasks_at))]
pub fn tasks_at(
    alloc: Global,
    names: &Names,
    value: &Value,
) -> Result<Option<Vec<List<OutsideStatements>>>, OutOfMemory>
    ensures tasks { IfOk result (λ read. option_map (λ kept. kept.items) read
        ≡ tasks_at names.now (view value.now)) }
{
    match value.get("tasks") {
        None => Ok(Some(Vec::new(alloc))),
        Some(found) => match found.as_object() {
            Some(members) => tasks(alloc, names, members),
            None => Ok(None),
        },
    }
}
