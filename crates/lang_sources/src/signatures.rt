//! The names of a source.
ghost use Rattle.std.specs.Prelude.{◌≡◌, IfOk, option_map};
ghost use Rattle.serde_json.specs.View.{view, members_view};
ghost use Rattle.lang_expressions.specs.Lists.{read_members};
ghost use Rattle.lang_sources.specs.Signatures.{params_in, signature_in, signatures_at, names_in};

use lang_expressions::{ContextKeys, Names, Signature, distinct_texts, kinds_in, list_or_empty};
use rt_values::{List, OutOfMemory, Text};
use serde_json::{Map, Value};
use std::alloc::Global;

/// The params of a component, an action or a task: names that differ.
pub fn params_in(alloc: Global, value: &Value) -> Result<Option<Vec<Text>>, OutOfMemory>
    ensures params { IfOk result (λ read. option_map (λ kept. kept.items) read
        ≡ params_in (view value.now)) }
{
    match list_or_empty(value, "params") {
        Some(values) => distinct_texts(alloc, values),
        None => Ok(None),
    }
}

fn signature(alloc: Global, name: &str, value: &Value) -> Result<Option<Signature>, OutOfMemory>
    ensures signature { IfOk result (λ read. read ≡ signature_in name.now (view value.now)) }
{
    let Some(params) = params_in(alloc, value)? else {
        return Ok(None);
    };
    Ok(Some(Signature {
        name: Text::from_str(alloc, name)?,
        params: params.len() as u64,
    }))
}

fn signatures(
    alloc: Global,
    members: &Map<String, Value>,
) -> Result<Option<Vec<Signature>>, OutOfMemory>
    ensures signatures { IfOk result (λ read. option_map (λ kept. kept.items) read
        ≡ read_members signature_in (members_view members.now.entries)) }
{
    let mut read = Vec::new(alloc);
    for (name, value) in members.iter() {
        let Some(one) = signature(alloc, name.as_str(), value)? else {
            return Ok(None);
        };
        read.push(one)?;
    }
    Ok(Some(read))
}

fn signatures_at(
    alloc: Global,
    value: &Value,
    key: &str,
) -> Result<Option<Vec<Signature>>, OutOfMemory>
    ensures signatures { IfOk result (λ read. option_map (λ kept. kept.items) read
        ≡ signatures_at key.now (view value.now)) }
{
    match value.get(key) {
        None => Ok(Some(Vec::new(alloc))),
        Some(found) => match found.as_object() {
            Some(members) => signatures(alloc, members),
            None => Ok(None),
        },
    }
}

/// The names of a source: its keys of contexts, and what its components, actions and tasks are called.
pub fn names_in(alloc: Global, value: &Value) -> Result<Option<Names>, OutOfMemory>
    ensures names { IfOk result (λ read. read ≡ names_in (view value.now)) }
{
    let Some(components) = signatures_at(alloc, value, "components")? else {
        return Ok(None);
    };
    let Some(actions) = signatures_at(alloc, value, "actions")? else {
        return Ok(None);
    };
    let Some(tasks) = signatures_at(alloc, value, "tasks")? else {
        return Ok(None);
    };
    let kinds = kinds_in(alloc, value)?;
    Ok(Some(Names {
        kinds: ContextKeys::from_vec(kinds),
        components: List::from_vec(components),
        actions: List::from_vec(actions),
        tasks: List::from_vec(tasks),
    }))
}
