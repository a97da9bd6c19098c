//! Attributes and listeners of slots, one in each slot.
ghost use Rattle.std.specs.Prelude.{◌≡◌, [], ◌∷◌, None, IfOk};
ghost use Rattle.tree_mirror.specs.Mirror as mirror;
ghost use Rattle.rt_language.specs.Values as language;
ghost use Rattle.rt_language.specs.Views as views;
ghost use Rattle.rt_model.specs.Tree.{text_value};

use crate::script::Script;
use lang_views::{Content, Value, text_of};
use rt_values::{List, OutOfMemory, Part, Text};
use std::alloc::Global;
use tree_nodes::{Attribute, AttributeValue};

/// The text of a value as an attribute's value; none where the value is none.
pub(crate) fn attribute_value(
    alloc: Global,
    value: Value,
) -> Result<AttributeValue<Script>, OutOfMemory>
    ensures value { IfOk result (λ given. mirror.value_of given ≡ views.attribute_value value) }
{
    match value.into_content() {
        Content::None => Ok(AttributeValue::None),
        Content::Number(number) => written(alloc, Value::new(Content::Number(number))),
        Content::Text(text) => Ok(AttributeValue::Text(text)),
        Content::Cell(number) => written(alloc, Value::cell(number)),
        Content::Task(number) => written(alloc, Value::task(number)),
    }
}

/// The text of a value that isn't none.
fn written(alloc: Global, value: Value) -> Result<AttributeValue<Script>, OutOfMemory>
    ensures text { IfOk result (λ given. mirror.value_of given ≡ text_value (language.text_of value)) }
{
    let text = text_of(alloc, &value)?;
    Ok(AttributeValue::Text(text))
}

/// The attributes of a slot that has one, without a namespace.
pub(crate) fn slot_with(
    alloc: Global,
    name: &Text,
    value: AttributeValue<Script>,
) -> Result<List<Attribute<Script>>, OutOfMemory>
    ensures one { IfOk result (λ slot. slot
        ≡ record { name = name.now; namespace = None; value = value } ∷ []) }
{
    let name = name.copy(alloc)?;
    let mut attributes = List::with_room(alloc, 1)?;
    attributes.push(Attribute {
        name,
        namespace: None,
        value,
    })?;
    Ok(attributes)
}
