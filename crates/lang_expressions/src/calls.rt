//! Expressions, variables and calls under the keys of an object.
ghost use Rattle.std.specs.Prelude.{◌≡◌, IfOk};
ghost use Rattle.serde_json.specs.View.{view, items_view};
ghost use Rattle.lang_expressions.specs.Calls.{expression_at, variable_at, call_in, call_at};

use crate::context_keys::ContextKeys;
use crate::expressions::{read_expression, read_expressions};
use crate::fields::{list_at, text_at};
use crate::names::place_of;
use crate::signatures::{Names, Signature, signature_of};
use lang_syntax::Expression;
use rt_values::{List, OutOfMemory, Text};
use serde_json::Value;
use std::alloc::Global;

/// The expression at a key.
pub fn expression_at(
    alloc: Global,
    names: &Names,
    variables: &[Text],
    value: &Value,
    key: &str,
) -> Result<Option<Expression>, OutOfMemory>
    ensures expression { IfOk result (λ read. read
        ≡ expression_at names.now variables.now key.now (view value.now)) }
{
    let Some(found) = value.get(key) else {
        return Ok(None);
    };
    read_expression(alloc, names, variables, found)
}

/// The place of the variable that is named at a key.
pub fn variable_at(variables: &[Text], value: &Value, key: &str) -> Option<u64>
    ensures variable { result ≡ variable_at variables.now key.now (view value.now) }
{
    match text_at(value, key) {
        Some(name) => place_of(variables, name),
        None => None,
    }
}

/// The kind of the key of contexts that is named at a key.
pub fn kind_at(kinds: &ContextKeys, value: &Value, key: &str) -> Option<u64>
    ensures kind { result ≡ variable_at kinds.now key.now (view value.now) }
{
    match text_at(value, key) {
        Some(name) => kinds.place_of(name),
        None => None,
    }
}

/// The place of what is used by this name, and what it is handed: as many values as it has params.
pub fn read_call(
    alloc: Global,
    names: &Names,
    variables: &[Text],
    signatures: &[Signature],
    name: &str,
    values: &[Value],
) -> Result<Option<(u64, List<Expression>)>, OutOfMemory>
    ensures call { IfOk result (λ call. call
        ≡ call_in names.now variables.now signatures.now name.now (items_view values.now)) }
{
    let Some((place, params)) = signature_of(signatures, name) else {
        return Ok(None);
    };
    let Some(handed) = read_expressions(alloc, names, variables, values)? else {
        return Ok(None);
    };
    if handed.len() as u64 != params {
        return Ok(None);
    }
    Ok(Some((place, List::from_vec(handed))))
}

/// What is used by the name at a key, and what it is handed by the list at `args`.
pub fn call_at(
    alloc: Global,
    names: &Names,
    variables: &[Text],
    signatures: &[Signature],
    value: &Value,
    key: &str,
) -> Result<Option<(u64, List<Expression>)>, OutOfMemory>
    ensures call { IfOk result (λ call. call
        ≡ call_at names.now variables.now signatures.now key.now (view value.now)) }
{
    let Some(name) = text_at(value, key) else {
        return Ok(None);
    };
    let Some(values) = list_at(value, "args") else {
        return Ok(None);
    };
    read_call(alloc, names, variables, signatures, name, values)
}
