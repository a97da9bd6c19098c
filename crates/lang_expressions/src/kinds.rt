//! The keys of contexts that a source names.
ghost use Rattle.std.specs.Prelude.{◌≡◌, IfOk, option_map};
ghost use Rattle.serde_json.specs.View.{view, items_view, members_view};
ghost use Rattle.lang_expressions.specs.Names.{texts_of};
ghost use Rattle.lang_expressions.specs.Kinds.{put_among, key_in, put_found, found_in, found_below, found_in_items, found_in_members, found_at, found_in_each, kinds_in};

use crate::fields::text_at;
use crate::keys::is_object_of;
use rt_values::{OutOfMemory, Text};
use serde_json::{Map, Value};
use std::alloc::Global;
use std::collections::BTreeSet;

/// One level more than JSON nests.
const LEVELS: u8 = 128;

// One key more, where it isn't one of them.
fn put_among<'a>(keys: BTreeSet<&'a str>, key: &'a str) -> Result<BTreeSet<&'a str>, OutOfMemory>
    ensures put { IfOk result (λ after. texts_of after ≡ put_among key.now (texts_of keys.entry)) }
{
    let mut keys = keys;
    keys.insert(key)?;
    Ok(keys)
}

/// The key that a value itself names: as a look-up, or as a statement that provides.
fn key_in(value: &Value) -> Option<&str>
    ensures key { option_map (λ key. key.now) result ≡ key_in (view value.now) }
{
    if is_object_of(value, &["context"]) {
        text_at(value, "context")
    } else if is_object_of(value, &["provide", "be"]) {
        text_at(value, "provide")
    } else {
        None
    }
}

fn put_found<'a>(
    value: &'a Value,
    keys: BTreeSet<&'a str>,
) -> Result<BTreeSet<&'a str>, OutOfMemory>
    ensures put { IfOk result (λ after. texts_of after
        ≡ put_found (view value.now) (texts_of keys.entry)) }
{
    match key_in(value) {
        Some(key) => put_among(keys, key),
        None => Ok(keys),
    }
}

#[cycle(found)]
#[tactic(auto, using(crate::proofs::Reading::found_levels))]
fn found_in<'a>(
    levels: u8,
    value: &'a Value,
    keys: BTreeSet<&'a str>,
) -> Result<BTreeSet<&'a str>, OutOfMemory>
    ensures found { IfOk result (λ after. texts_of after
        ≡ found_in levels (view value.now) (texts_of keys.entry)) }
{
    if levels == 0 {
        return Ok(keys);
    }
    let keys = put_found(value, keys)?;
    found_below(levels - 1, value, keys)
}

#[cycle(found)]
fn found_below<'a>(
    levels: u8,
    value: &'a Value,
    keys: BTreeSet<&'a str>,
) -> Result<BTreeSet<&'a str>, OutOfMemory>
    ensures found { IfOk result (λ after. texts_of after
        ≡ found_below (found_in levels) (view value.now) (texts_of keys.entry)) }
{
    match value {
        Value::Array(values) => found_in_items(levels, values, keys),
        Value::Object(members) => found_in_members(levels, members, keys),
        _ => Ok(keys),
    }
}

#[cycle(found)]
#[tactic(auto, using(crate::proofs::Reading::found_in_items_next), unfolding(crate::specs::Kinds::found_in_items))]
fn found_in_items<'a>(
    levels: u8,
    values: &'a [Value],
    keys: BTreeSet<&'a str>,
) -> Result<BTreeSet<&'a str>, OutOfMemory>
    ensures found { IfOk result (λ after. texts_of after
        ≡ found_in_items (found_in levels) (items_view values.now) (texts_of keys.entry)) }
{
    let mut keys = keys;
    for value in values {
        keys = found_in(levels, value, keys)?;
    }
    Ok(keys)
}

#[cycle(found)]
#[tactic(auto, unfolding(crate::specs::Kinds::found_in_members))]
fn found_in_members<'a>(
    levels: u8,
    members: &'a Map<String, Value>,
    keys: BTreeSet<&'a str>,
) -> Result<BTreeSet<&'a str>, OutOfMemory>
    ensures found { IfOk result (λ after. texts_of after
        ≡ found_in_members (found_in levels) (members_view members.now.entries) (texts_of keys.entry)) }
{
    let mut keys = keys;
    for (key, value) in members.iter() {
        keys = found_at(levels, key.as_str(), value, keys)?;
    }
    Ok(keys)
}

#[cycle(found)]
fn found_at<'a>(
    levels: u8,
    key: &str,
    value: &'a Value,
    keys: BTreeSet<&'a str>,
) -> Result<BTreeSet<&'a str>, OutOfMemory>
    ensures found { IfOk result (λ after. texts_of after
        ≡ found_at (found_in levels) key.now (view value.now) (texts_of keys.entry)) }
{
    if key != "attrs" {
        return found_in(levels, value, keys);
    }
    match value {
        Value::Object(members) => found_in_each(levels, members, keys),
        _ => Ok(keys),
    }
}

#[cycle(found)]
#[tactic(auto, unfolding(crate::specs::Kinds::found_in_each))]
fn found_in_each<'a>(
    levels: u8,
    members: &'a Map<String, Value>,
    keys: BTreeSet<&'a str>,
) -> Result<BTreeSet<&'a str>, OutOfMemory>
    ensures found { IfOk result (λ after. texts_of after
        ≡ found_in_each (found_in levels) (members_view members.now.entries) (texts_of keys.entry)) }
{
    let mut keys = keys;
    for (_key, value) in members.iter() {
        keys = found_in(levels, value, keys)?;
    }
    Ok(keys)
}

// A copy of each of them, in order.
fn copies_of(alloc: Global, keys: &BTreeSet<&str>) -> Result<Vec<Text>, OutOfMemory>
    ensures copies { IfOk result (λ copies. copies.items ≡ texts_of keys.now) }
{
    let mut copies = Vec::new(alloc);
    for key in keys.iter() {
        copies.push(Text::from_str(alloc, *key)?)?;
    }
    Ok(copies)
}

/// The keys of contexts in a source, each once and sorted by bytes.
pub fn kinds_in(alloc: Global, value: &Value) -> Result<Vec<Text>, OutOfMemory>
    ensures kinds { IfOk result (λ kinds. kinds.items ≡ kinds_in (view value.now)) }
{
    let keys = found_in(LEVELS, value, BTreeSet::new(alloc))?;
    copies_of(alloc, &keys)
}
