//! The whole of a source.
ghost use Rattle.std.specs.Prelude.{◌≡◌, IfOk, option_map};
ghost use Rattle.serde_json.specs.View.{view};
ghost use Rattle.lang_sources.specs.Whole.{root_in, props_in, inputs_in, posts_in, source_with, source_in};

use crate::definitions::{actions_at, components_at, tasks_at};
use crate::inputs::{inputs_of, literals, posters};
use crate::signatures::names_in;
use lang_expressions::{Names, is_object_of, list_or_empty, signature_of, text_at};
use lang_syntax::{InputSource, Literal, PostSource, Source};
use rt_values::{List, OutOfMemory};
use serde_json::Value;
use std::alloc::Global;

/// How many posters a source has at most.
pub const POSTERS_LIMIT: usize = 1_000;

/// The place of the root component, and how many params it has.
#[tactic(auto, unfolding(crate::specs::Whole::root_in))]
fn root_in(names: &Names, value: &Value) -> Option<(u64, u64)>
    ensures root { result ≡ root_in names.now (view value.now) }
{
    match text_at(value, "root") {
        Some(name) => signature_of(names.components.as_slice(), name),
        None => None,
    }
}

/// The props of the root, as many as it has params.
#[tactic(auto, unfolding(crate::specs::Whole::props_in))]
fn props_in(alloc: Global, params: u64, value: &Value) -> Result<Option<Vec<Literal>>, OutOfMemory>
    ensures props { IfOk result (λ read. option_map (λ kept. kept.items) read
        ≡ props_in params (view value.now)) }
{
    let Some(values) = list_or_empty(value, "props") else {
        return Ok(None);
    };
    let Some(props) = literals(alloc, values)? else {
        return Ok(None);
    };
    if props.len() as u64 != params {
        return Ok(None);
    }
    Ok(Some(props))
}

#[tactic(auto, unfolding(crate::specs::Whole::inputs_in))]
fn inputs_in(alloc: Global, value: &Value) -> Result<Option<Vec<InputSource>>, OutOfMemory>
    ensures inputs { IfOk result (λ read. option_map (λ kept. kept.items) read
        ≡ inputs_in (view value.now)) }
{
    match list_or_empty(value, "inputs") {
        Some(values) => inputs_of(alloc, values),
        None => Ok(None),
    }
}

#[tactic(auto, unfolding(crate::specs::Whole::posts_in))]
fn posts_in(alloc: Global, value: &Value) -> Result<Option<Vec<List<PostSource>>>, OutOfMemory>
    ensures posts { IfOk result (λ read. option_map (λ kept. kept.items) read
        ≡ posts_in (view value.now)) }
{
    let Some(values) = list_or_empty(value, "posts") else {
        return Ok(None);
    };
    let Some(posts) = posters(alloc, values)? else {
        return Ok(None);
    };
    if posts.len() > POSTERS_LIMIT {
        return Ok(None);
    }
    Ok(Some(posts))
}

/// A source with these names, a root, and what that is handed.
#[tactic(auto, unfolding(crate::specs::Whole::source_with))]
fn source_with(
    alloc: Global,
    names: &Names,
    root: u64,
    props: List<Literal>,
    value: &Value,
) -> Result<Option<Source>, OutOfMemory>
    ensures source { IfOk result (λ read. read
        ≡ source_with names.now root (view value.now) props) }
{
    let Some(components) = components_at(alloc, names, value)? else {
        return Ok(None);
    };
    let Some(actions) = actions_at(alloc, names, value)? else {
        return Ok(None);
    };
    let Some(tasks) = tasks_at(alloc, names, value)? else {
        return Ok(None);
    };
    let Some(inputs) = inputs_in(alloc, value)? else {
        return Ok(None);
    };
    let Some(posts) = posts_in(alloc, value)? else {
        return Ok(None);
    };
    Ok(Some(Source {
        components: List::from_vec(components),
        root,
        props,
        actions: List::from_vec(actions),
        tasks: List::from_vec(tasks),
        inputs: List::from_vec(inputs),
        posts: List::from_vec(posts),
    }))
}

/// The source that a value is.
#[tactic(auto, unfolding(crate::specs::Whole::source_in))]
pub fn source_in(alloc: Global, value: &Value) -> Result<Option<Source>, OutOfMemory>
    ensures source { IfOk result (λ read. read ≡ source_in (view value.now)) }
{
    let known = [
        "components",
        "root",
        "props",
        "actions",
        "tasks",
        "inputs",
        "posts",
    ];
    if !is_object_of(value, &known) {
        return Ok(None);
    }
    let Some(names) = names_in(alloc, value)? else {
        return Ok(None);
    };
    let Some((root, params)) = root_in(&names, value) else {
        return Ok(None);
    };
    let Some(props) = props_in(alloc, params, value)? else {
        return Ok(None);
    };
    source_with(alloc, &names, root, List::from_vec(props), value)
}
