//! What stands in a view and has no view nodes in it.
ghost use Rattle.std.specs.Prelude.{◌≡◌, ◌++◌, ◌∷◌, [], IfOk, option_map};
ghost use Rattle.serde_json.specs.View.{view};
ghost use Rattle.lang_expressions.specs.Parts.{component_use, use_at, leaf_of, name_or_none, namespace_in};

use crate::calls::{expression_at, read_call};
use crate::fields::{is_zero_at, list_or_empty, text_at};
use crate::keys::is_object_of;
use crate::signatures::Names;
use crate::view_forms::Leaf;
use lang_syntax::{ComponentUse, ViewSlot};
use rt_values::{OutOfMemory, Text, copy_slice, is_name};
use serde_json::Value;
use std::alloc::Global;

/// A component with as many props as it has params.
fn component_use(
    alloc: Global,
    names: &Names,
    variables: &[Text],
    value: &Value,
) -> Result<Option<ComponentUse>, OutOfMemory>
    ensures handed { IfOk result (λ read. read
        ≡ component_use names.now variables.now (view value.now)) }
{
    if !is_object_of(value, &["use", "props"]) {
        return Ok(None);
    }
    let Some(name) = text_at(value, "use") else {
        return Ok(None);
    };
    let Some(values) = list_or_empty(value, "props") else {
        return Ok(None);
    };
    let components = names.components.as_slice();
    match read_call(alloc, names, variables, components, name, values)? {
        Some((component, props)) => Ok(Some(ComponentUse { component, props })),
        None => Ok(None),
    }
}

/// The component at a key, where one stands there.
pub fn use_at(
    alloc: Global,
    names: &Names,
    variables: &[Text],
    value: &Value,
    key: &str,
) -> Result<Option<Option<ComponentUse>>, OutOfMemory>
    ensures handed { IfOk result (λ read. read
        ≡ use_at names.now variables.now key.now (view value.now)) }
{
    match value.get(key) {
        None => Ok(Some(None)),
        Some(found) => match component_use(alloc, names, variables, found)? {
            Some(handed) => Ok(Some(Some(handed))),
            None => Ok(None),
        },
    }
}

/// A slot without view nodes in it.
pub fn leaf_of(
    alloc: Global,
    names: &Names,
    variables: &[Text],
    leaf: Leaf,
    value: &Value,
) -> Result<Option<ViewSlot>, OutOfMemory>
    ensures leaf { IfOk result (λ read. read
        ≡ leaf_of names.now variables.now leaf (view value.now)) }
{
    match leaf {
        Leaf::Text => {
            if !is_object_of(value, &["text"]) {
                return Ok(None);
            }
            let text = expression_at(alloc, names, variables, value, "text")?;
            Ok(text.map(ViewSlot::TextOf))
        }
        Leaf::Use => {
            let handed = component_use(alloc, names, variables, value)?;
            Ok(handed.map(ViewSlot::UseOf))
        }
        Leaf::Hole => {
            if is_object_of(value, &["hole"]) && is_zero_at(value, "hole") {
                Ok(Some(ViewSlot::Hole))
            } else {
                Ok(None)
            }
        }
    }
}

/// A namespace where one stands, which is a name.
pub fn namespace_in(alloc: Global, value: &Value) -> Result<Option<Option<Text>>, OutOfMemory>
    ensures namespace { IfOk result (λ read. read ≡ namespace_in (view value.now)) }
{
    let Some(found) = value.get("ns") else {
        return Ok(Some(None));
    };
    let Some(name) = found.as_str() else {
        return Ok(None);
    };
    if !is_name(name) {
        return Ok(None);
    }
    Ok(Some(Some(Text::shared(alloc, name)?)))
}

/// The names in reach with one more.
pub fn with_name(alloc: Global, variables: &[Text], name: &str) -> Result<Vec<Text>, OutOfMemory>
    ensures more { IfOk result (λ more. more.items ≡ variables.now ++ name.now ∷ []) }
{
    let mut more = copy_slice(alloc, variables)?;
    more.push(Text::from_str(alloc, name)?)?;
    Ok(more)
}
