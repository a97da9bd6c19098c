//! Attributes and listeners of an element.
ghost use Rattle.std.specs.Prelude.{◌≡◌, IfOk, option_map};
ghost use Rattle.serde_json.specs.View.{view, members_view};
ghost use Rattle.lang_expressions.specs.Lists.{read_members};
ghost use Rattle.lang_expressions.specs.Attributes.{attribute_in, listener_in, attributes_at, listeners_at, all_in};

use crate::calls::call_at;
use crate::expressions::read_expression;
use crate::keys::is_object_of;
use crate::signatures::Names;
use lang_syntax::ViewAttribute;
use rt_values::{List, OutOfMemory, Text, is_name};
use serde_json::{Map, Value};
use std::alloc::Global;

fn attribute(
    alloc: Global,
    names: &Names,
    variables: &[Text],
    name: &str,
    value: &Value,
) -> Result<Option<ViewAttribute>, OutOfMemory>
    ensures attribute { IfOk result (λ read. read
        ≡ attribute_in names.now variables.now name.now (view value.now)) }
{
    if !is_name(name) {
        return Ok(None);
    }
    let name = Text::shared(alloc, name)?;
    if let Some(text) = value.as_str() {
        let value = Text::shared(alloc, text)?;
        return Ok(Some(ViewAttribute::Static { name, value }));
    }
    match read_expression(alloc, names, variables, value)? {
        Some(value) => Ok(Some(ViewAttribute::Slot { name, value })),
        None => Ok(None),
    }
}

fn listener(
    alloc: Global,
    names: &Names,
    variables: &[Text],
    name: &str,
    value: &Value,
) -> Result<Option<ViewAttribute>, OutOfMemory>
    ensures listener { IfOk result (λ read. read
        ≡ listener_in names.now variables.now name.now (view value.now)) }
{
    if !is_name(name) || !is_object_of(value, &["do", "args"]) {
        return Ok(None);
    }
    let actions = names.actions.as_slice();
    let Some((action, arguments)) = call_at(alloc, names, variables, actions, value, "do")? else {
        return Ok(None);
    };
    Ok(Some(ViewAttribute::Listener {
        name: Text::shared(alloc, name)?,
        action,
        arguments,
    }))
}

fn attributes(
    alloc: Global,
    names: &Names,
    variables: &[Text],
    members: &Map<String, Value>,
) -> Result<Option<Vec<ViewAttribute>>, OutOfMemory>
    ensures attributes { IfOk result (λ read. option_map (λ kept. kept.items) read
        ≡ read_members (attribute_in names.now variables.now) (members_view members.now.entries)) }
{
    let mut read = Vec::new(alloc);
    for (name, value) in members.iter() {
        let Some(one) = attribute(alloc, names, variables, name.as_str(), value)? else {
            return Ok(None);
        };
        read.push(one)?;
    }
    Ok(Some(read))
}

fn listeners(
    alloc: Global,
    names: &Names,
    variables: &[Text],
    members: &Map<String, Value>,
) -> Result<Option<Vec<ViewAttribute>>, OutOfMemory>
    ensures listeners { IfOk result (λ read. option_map (λ kept. kept.items) read
        ≡ read_members (listener_in names.now variables.now) (members_view members.now.entries)) }
{
    let mut read = Vec::new(alloc);
    for (name, value) in members.iter() {
        let Some(one) = listener(alloc, names, variables, name.as_str(), value)? else {
            return Ok(None);
        };
        read.push(one)?;
    }
    Ok(Some(read))
}

fn attributes_at(
    alloc: Global,
    names: &Names,
    variables: &[Text],
    value: &Value,
) -> Result<Option<Vec<ViewAttribute>>, OutOfMemory>
    ensures attributes { IfOk result (λ read. option_map (λ kept. kept.items) read
        ≡ attributes_at names.now variables.now (view value.now)) }
{
    match value.get("attrs") {
        None => Ok(Some(Vec::new(alloc))),
        Some(found) => match found.as_object() {
            Some(members) => attributes(alloc, names, variables, members),
            None => Ok(None),
        },
    }
}

fn listeners_at(
    alloc: Global,
    names: &Names,
    variables: &[Text],
    value: &Value,
) -> Result<Option<Vec<ViewAttribute>>, OutOfMemory>
    ensures listeners { IfOk result (λ read. option_map (λ kept. kept.items) read
        ≡ listeners_at names.now variables.now (view value.now)) }
{
    match value.get("on") {
        None => Ok(Some(Vec::new(alloc))),
        Some(found) => match found.as_object() {
            Some(members) => listeners(alloc, names, variables, members),
            None => Ok(None),
        },
    }
}

/// The attributes of an element in order of name, then its listeners in order of name.
pub fn all_attributes(
    alloc: Global,
    names: &Names,
    variables: &[Text],
    value: &Value,
) -> Result<Option<List<ViewAttribute>>, OutOfMemory>
    ensures all { IfOk result (λ read. read ≡ all_in names.now variables.now (view value.now)) }
{
    let Some(attributes) = attributes_at(alloc, names, variables, value)? else {
        return Ok(None);
    };
    let Some(listeners) = listeners_at(alloc, names, variables, value)? else {
        return Ok(None);
    };
    let mut all = List::from_vec(attributes);
    all.append(List::from_vec(listeners))?;
    Ok(Some(all))
}
