//! View nodes from JSON.
ghost use Rattle.std.specs.Prelude.{◌≡◌, IfOk, option_map};
ghost use Rattle.serde_json.specs.View.{view, items_view};
ghost use Rattle.lang_expressions.specs.Lists.{read_each};
ghost use Rattle.lang_expressions.specs.Views.{node_of, formed, element_of, list_of, pick_of, view_at, boundary_of, boundary_with, fragment_of, views_of, view_in};

use crate::attributes::all_attributes;
use crate::calls::expression_at;
use crate::expressions::read_expression;
use crate::fields::{list_at, list_or_empty, text_at};
use crate::keys::is_object_of;
use crate::parts::{leaf_of, namespace_in, use_at, with_name};
use crate::signatures::Names;
use crate::view_forms::{Form, form_in};
use lang_syntax::{ViewNode, ViewSlot};
use rt_values::{List, OutOfMemory, Text, is_name};
use serde_json::Value;
use std::alloc::Global;

/// One level more than JSON nests, so that nothing is refused for its levels here.
const LEVELS: u8 = 128;

#[cycle(node)]
#[tactic(auto, using(crate::proofs::Levels::node_levels))]
fn node(
    alloc: Global,
    levels: u8,
    names: &Names,
    variables: &[Text],
    value: &Value,
) -> Result<Option<ViewNode>, OutOfMemory>
    ensures node { IfOk result (λ read. read
        ≡ node_of levels names.now variables.now (view value.now)) }
{
    if levels == 0 {
        return Ok(None);
    }
    if let Some(text) = value.as_str() {
        return Ok(Some(ViewNode::Text(Text::shared(alloc, text)?)));
    }
    let Some(form) = form_in(value) else {
        return Ok(None);
    };
    formed(alloc, levels - 1, names, variables, form, value)
}

#[cycle(node)]
fn formed(
    alloc: Global,
    levels: u8,
    names: &Names,
    variables: &[Text],
    form: Form,
    value: &Value,
) -> Result<Option<ViewNode>, OutOfMemory>
    ensures formed { IfOk result (λ read. read
        ≡ formed (views_of (node_of levels names.now)) names.now variables.now form
        (view value.now)) }
{
    match form {
        Form::Element => element(alloc, levels, names, variables, value),
        Form::List => {
            let slot = list(alloc, levels, names, variables, value)?;
            Ok(slot.map(ViewNode::Slot))
        }
        Form::Pick => {
            let slot = pick(alloc, levels, names, variables, value)?;
            Ok(slot.map(ViewNode::Slot))
        }
        Form::Fragment => {
            let slot = fragment(alloc, levels, names, variables, value)?;
            Ok(slot.map(ViewNode::Slot))
        }
        Form::Boundary => {
            let slot = boundary(alloc, levels, names, variables, value)?;
            Ok(slot.map(ViewNode::Slot))
        }
        Form::Alone(leaf) => {
            let slot = leaf_of(alloc, names, variables, leaf, value)?;
            Ok(slot.map(ViewNode::Slot))
        }
    }
}

#[cycle(node)]
fn element(
    alloc: Global,
    levels: u8,
    names: &Names,
    variables: &[Text],
    value: &Value,
) -> Result<Option<ViewNode>, OutOfMemory>
    ensures element { IfOk result (λ read. read
        ≡ element_of (views_of (node_of levels names.now)) names.now variables.now
        (view value.now)) }
{
    if !is_object_of(value, &["el", "ns", "attrs", "on", "kids"]) {
        return Ok(None);
    }
    let Some(tag) = text_at(value, "el") else {
        return Ok(None);
    };
    if !is_name(tag) {
        return Ok(None);
    }
    let Some(namespace) = namespace_in(alloc, value)? else {
        return Ok(None);
    };
    let Some(attributes) = all_attributes(alloc, names, variables, value)? else {
        return Ok(None);
    };
    let Some(values) = list_or_empty(value, "kids") else {
        return Ok(None);
    };
    let Some(kids) = nodes(alloc, levels, names, variables, values)? else {
        return Ok(None);
    };
    Ok(Some(ViewNode::Element {
        tag: Text::shared(alloc, tag)?,
        namespace,
        attributes,
        kids: List::from_vec(kids),
    }))
}

/// A list of items, each with its number in reach under a name.
#[cycle(node)]
fn list(
    alloc: Global,
    levels: u8,
    names: &Names,
    variables: &[Text],
    value: &Value,
) -> Result<Option<ViewSlot>, OutOfMemory>
    ensures list { IfOk result (λ read. read
        ≡ list_of (views_of (node_of levels names.now)) names.now variables.now
        (view value.now)) }
{
    if !is_object_of(value, &["list", "as", "item"]) {
        return Ok(None);
    }
    let Some(count) = expression_at(alloc, names, variables, value, "list")? else {
        return Ok(None);
    };
    let Some(name) = text_at(value, "as") else {
        return Ok(None);
    };
    let Some(values) = list_at(value, "item") else {
        return Ok(None);
    };
    let inner = with_name(alloc, variables, name)?;
    let Some(item) = nodes(alloc, levels, names, &inner, values)? else {
        return Ok(None);
    };
    Ok(Some(ViewSlot::ListOf {
        count,
        item: List::from_vec(item),
    }))
}

/// A list of just a test and two lists of view nodes.
#[cycle(node)]
fn pick(
    alloc: Global,
    levels: u8,
    names: &Names,
    variables: &[Text],
    value: &Value,
) -> Result<Option<ViewSlot>, OutOfMemory>
    ensures pick { IfOk result (λ read. read
        ≡ pick_of (views_of (node_of levels names.now)) names.now variables.now
        (view value.now)) }
{
    if !is_object_of(value, &["pick"]) {
        return Ok(None);
    }
    let Some(parts) = value.get("pick") else {
        return Ok(None);
    };
    if parts.get(3usize).is_some() {
        return Ok(None);
    }
    let Some(first) = parts.get(0usize) else {
        return Ok(None);
    };
    let Some(test) = read_expression(alloc, names, variables, first)? else {
        return Ok(None);
    };
    let Some(chosen) = tree_at(alloc, levels, names, variables, parts, 1)? else {
        return Ok(None);
    };
    let Some(other) = tree_at(alloc, levels, names, variables, parts, 2)? else {
        return Ok(None);
    };
    Ok(Some(ViewSlot::PickOf {
        test,
        chosen: List::from_vec(chosen),
        other: List::from_vec(other),
    }))
}

/// The view nodes at a place of a list.
#[cycle(node)]
fn tree_at(
    alloc: Global,
    levels: u8,
    names: &Names,
    variables: &[Text],
    parts: &Value,
    place: usize,
) -> Result<Option<Vec<ViewNode>>, OutOfMemory>
    ensures nodes { IfOk result (λ read. option_map (λ kept. kept.items) read
        ≡ view_at (views_of (node_of levels names.now)) variables.now place (view parts.now)) }
{
    let Some(values) = parts.get(place).and_then(Value::as_array) else {
        return Ok(None);
    };
    nodes(alloc, levels, names, variables, values)
}

#[cycle(node)]
fn fragment(
    alloc: Global,
    levels: u8,
    names: &Names,
    variables: &[Text],
    value: &Value,
) -> Result<Option<ViewSlot>, OutOfMemory>
    ensures fragment { IfOk result (λ read. read
        ≡ fragment_of (views_of (node_of levels names.now)) variables.now (view value.now)) }
{
    if !is_object_of(value, &["fragment"]) {
        return Ok(None);
    }
    let Some(values) = list_at(value, "fragment") else {
        return Ok(None);
    };
    let Some(children) = nodes(alloc, levels, names, variables, values)? else {
        return Ok(None);
    };
    Ok(Some(ViewSlot::FragmentOf(List::from_vec(children))))
}

#[cycle(node)]
fn boundary(
    alloc: Global,
    levels: u8,
    names: &Names,
    variables: &[Text],
    value: &Value,
) -> Result<Option<ViewSlot>, OutOfMemory>
    ensures boundary { IfOk result (λ read. read
        ≡ boundary_of (views_of (node_of levels names.now)) names.now variables.now
        (view value.now)) }
{
    let Some(word) = text_at(value, "boundary") else {
        return Ok(None);
    };
    let Some(values) = list_at(value, "kids") else {
        return Ok(None);
    };
    let Some(kids) = nodes(alloc, levels, names, variables, values)? else {
        return Ok(None);
    };
    boundary_with(alloc, names, variables, word, List::from_vec(kids), value)
}

/// A boundary round kids that are read already.
fn boundary_with(
    alloc: Global,
    names: &Names,
    variables: &[Text],
    word: &str,
    kids: List<ViewNode>,
    value: &Value,
) -> Result<Option<ViewSlot>, OutOfMemory>
    ensures boundary { IfOk result (λ read. read
        ≡ boundary_with names.now variables.now word.now (view value.now) kids) }
{
    if word == "error" && is_object_of(value, &["boundary", "kids", "handler"]) {
        return match use_at(alloc, names, variables, value, "handler")? {
            Some(handler) => Ok(Some(ViewSlot::ErrorBoundaryOf { kids, handler })),
            None => Ok(None),
        };
    }
    if word == "suspense" && is_object_of(value, &["boundary", "kids", "fallback"]) {
        return match use_at(alloc, names, variables, value, "fallback")? {
            Some(fallback) => Ok(Some(ViewSlot::SuspenseBoundaryOf { kids, fallback })),
            None => Ok(None),
        };
    }
    Ok(None)
}

#[cycle(node)]
fn nodes(
    alloc: Global,
    levels: u8,
    names: &Names,
    variables: &[Text],
    values: &[Value],
) -> Result<Option<Vec<ViewNode>>, OutOfMemory>
    ensures nodes { IfOk result (λ read. option_map (λ kept. kept.items) read
        ≡ views_of (node_of levels names.now) variables.now (items_view values.now)) }
{
    let mut read = Vec::new(alloc);
    for value in values {
        let Some(one) = node(alloc, levels, names, variables, value)? else {
            return Ok(None);
        };
        read.push(one)?;
    }
    Ok(Some(read))
}

/// The view that a list of values is, with these variables in reach.
pub fn read_view(
    alloc: Global,
    names: &Names,
    variables: &[Text],
    values: &[Value],
) -> Result<Option<Vec<ViewNode>>, OutOfMemory>
    ensures nodes { IfOk result (λ read. option_map (λ kept. kept.items) read
        ≡ view_in names.now variables.now (items_view values.now)) }
{
    nodes(alloc, LEVELS, names, variables, values)
}
