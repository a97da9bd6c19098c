//! Literals, messages, and what comes from outside.
ghost use Rattle.std.specs.Prelude.{◌≡◌, IfOk, option_map};
ghost use Rattle.serde_json.specs.View.{view, items_view};
ghost use Rattle.lang_expressions.specs.Lists.{read_each};
ghost use Rattle.lang_sources.specs.Inputs.{literal_in, literal_there, literal_at, post_in, poster_in, number_there, number_at, event_in, write_in, drain_in, input_in};

use lang_expressions::{is_object_of, is_zero_at, list_at, text_at, whole_at};
use lang_syntax::{InputSource, Literal, PostSource};
use rt_values::{List, OutOfMemory, Text};
use serde_json::Value;
use std::alloc::Global;

/// How many messages a poster has at most.
pub const POSTS_LIMIT: usize = 1_000_000;

fn literal(alloc: Global, value: &Value) -> Result<Option<Literal>, OutOfMemory>
    ensures literal { IfOk result (λ read. read ≡ literal_in (view value.now)) }
{
    if let Some(text) = value.as_str() {
        return Ok(Some(Literal::Text(Text::from_str(alloc, text)?)));
    }
    Ok(value.as_i64().map(Literal::Number))
}

/// The literals of a list, where each of its values is one.
pub fn literals(alloc: Global, values: &[Value]) -> Result<Option<Vec<Literal>>, OutOfMemory>
    ensures literals { IfOk result (λ read. option_map (λ kept. kept.items) read
        ≡ read_each literal_in (items_view values.now)) }
{
    let mut read = Vec::new(alloc);
    for value in values {
        let Some(one) = literal(alloc, value)? else {
            return Ok(None);
        };
        read.push(one)?;
    }
    Ok(Some(read))
}

/// The literal at a key, where something stands there.
fn literal_at(
    alloc: Global,
    value: &Value,
    key: &str,
) -> Result<Option<Option<Literal>>, OutOfMemory>
    ensures literal { IfOk result (λ read. read ≡ literal_at key.now (view value.now)) }
{
    match value.get(key) {
        None => Ok(Some(None)),
        Some(found) => match literal(alloc, found)? {
            Some(one) => Ok(Some(Some(one))),
            None => Ok(None),
        },
    }
}

/// The whole number at a key, where something stands there.
fn number_at(value: &Value, key: &str) -> Option<Option<i64>>
    ensures number { result ≡ number_at key.now (view value.now) }
{
    match value.get(key) {
        None => Some(None),
        Some(found) => match found.as_i64() {
            Some(number) => Some(Some(number)),
            None => None,
        },
    }
}

fn post(value: &Value) -> Option<PostSource>
    ensures post { result ≡ post_in (view value.now) }
{
    if is_object_of(value, &["mark"]) {
        whole_at(value, "mark").map(PostSource::Mark)
    } else if is_object_of(value, &["wake"]) {
        whole_at(value, "wake").map(PostSource::Wake)
    } else if is_object_of(value, &["all"]) && is_zero_at(value, "all") {
        Some(PostSource::All)
    } else {
        None
    }
}

/// The messages of a list, where each of its values is one.
fn messages(alloc: Global, values: &[Value]) -> Result<Option<Vec<PostSource>>, OutOfMemory>
    ensures posts { IfOk result (λ read. option_map (λ kept. kept.items) read
        ≡ read_each post_in (items_view values.now)) }
{
    let mut read = Vec::new(alloc);
    for value in values {
        let Some(one) = post(value) else {
            return Ok(None);
        };
        read.push(one)?;
    }
    Ok(Some(read))
}

fn poster(alloc: Global, value: &Value) -> Result<Option<List<PostSource>>, OutOfMemory>
    ensures poster { IfOk result (λ read. read ≡ poster_in (view value.now)) }
{
    let Some(values) = value.as_array() else {
        return Ok(None);
    };
    let Some(posts) = messages(alloc, values)? else {
        return Ok(None);
    };
    if posts.len() > POSTS_LIMIT {
        return Ok(None);
    }
    Ok(Some(List::from_vec(posts)))
}

/// The messages of each poster.
pub fn posters(
    alloc: Global,
    values: &[Value],
) -> Result<Option<Vec<List<PostSource>>>, OutOfMemory>
    ensures posters { IfOk result (λ read. option_map (λ kept. kept.items) read
        ≡ read_each poster_in (items_view values.now)) }
{
    let mut read = Vec::new(alloc);
    for value in values {
        let Some(one) = poster(alloc, value)? else {
            return Ok(None);
        };
        read.push(one)?;
    }
    Ok(Some(read))
}

fn event(alloc: Global, value: &Value) -> Result<Option<InputSource>, OutOfMemory>
    ensures event { IfOk result (λ read. read ≡ event_in (view value.now)) }
{
    let Some(name) = text_at(value, "event") else {
        return Ok(None);
    };
    let Some(element) = whole_at(value, "element") else {
        return Ok(None);
    };
    let Some(bubbles) = number_at(value, "bubbles") else {
        return Ok(None);
    };
    let Some(payload) = literal_at(alloc, value, "payload")? else {
        return Ok(None);
    };
    Ok(Some(InputSource::Event {
        name: Text::from_str(alloc, name)?,
        element,
        payload,
        bubbles,
    }))
}

fn write(alloc: Global, value: &Value) -> Result<Option<InputSource>, OutOfMemory>
    ensures write { IfOk result (λ read. read ≡ write_in (view value.now)) }
{
    let Some(cell) = whole_at(value, "write") else {
        return Ok(None);
    };
    let Some(given) = value.get("be") else {
        return Ok(None);
    };
    match literal(alloc, given)? {
        Some(given) => Ok(Some(InputSource::Write { cell, value: given })),
        None => Ok(None),
    }
}

fn drain(alloc: Global, value: &Value) -> Result<Option<InputSource>, OutOfMemory>
    ensures drain { IfOk result (λ read. read ≡ drain_in (view value.now)) }
{
    let Some(values) = list_at(value, "drain") else {
        return Ok(None);
    };
    match messages(alloc, values)? {
        Some(posts) => Ok(Some(InputSource::Drain(List::from_vec(posts)))),
        None => Ok(None),
    }
}

/// The input that a value is, or `None` where it isn't in the form of one.
pub fn input(alloc: Global, value: &Value) -> Result<Option<InputSource>, OutOfMemory>
    ensures input { IfOk result (λ read. read ≡ input_in (view value.now)) }
{
    if is_object_of(value, &["event", "element", "payload", "bubbles"]) {
        event(alloc, value)
    } else if is_object_of(value, &["wake"]) {
        Ok(whole_at(value, "wake").map(InputSource::Wake))
    } else if is_object_of(value, &["write", "be"]) {
        write(alloc, value)
    } else if is_object_of(value, &["mark"]) {
        Ok(whole_at(value, "mark").map(InputSource::Mark))
    } else if is_object_of(value, &["drain"]) {
        drain(alloc, value)
    } else {
        Ok(None)
    }
}

/// The inputs of a list, where each of its values is one.
pub fn inputs_of(alloc: Global, values: &[Value]) -> Result<Option<Vec<InputSource>>, OutOfMemory>
    ensures inputs { IfOk result (λ read. option_map (λ kept. kept.items) read
        ≡ read_each input_in (items_view values.now)) }
{
    let mut read = Vec::new(alloc);
    for value in values {
        let Some(one) = input(alloc, value)? else {
            return Ok(None);
        };
        read.push(one)?;
    }
    Ok(Some(read))
}
