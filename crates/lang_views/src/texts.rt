//! The texts of values.
ghost use Rattle.std.specs.Prelude.{◌≡◌, ◌++◌, IfOk, OnOk, string_bytes};
ghost use Rattle.rt_language.specs.Values as language;

use crate::value::{Content, Value};
use rt_values::{OutOfMemory, Text};
use std::alloc::{AllocError, Global};

/// Appends the text of a value: a number in decimal, a text itself, nothing of none, the number of
/// a cell or task.
pub fn put_text(to: &mut String, value: &Value) -> Result<(), AllocError>
    ensures text { OnOk result (string_bytes to.new ≡ string_bytes to.old ++ language.text_of value.now) }
{
    match value.content() {
        Content::None => Ok(()),
        Content::Number(number) => to.write(*number),
        Content::Text(text) => to.push_str(text.as_str()),
        Content::Cell(number) => to.write(*number),
        Content::Task(number) => to.write(*number),
    }
}

/// The text of a value.
pub fn text_of(alloc: Global, value: &Value) -> Result<Text, OutOfMemory>
    ensures text { IfOk result (λ text. text ≡ language.text_of value.now) }
{
    let mut text = String::new(alloc);
    put_text(&mut text, value)?;
    Ok(Text::from_string(text))
}

/// The text of a value that is used up: a text is moved.
pub fn into_text(alloc: Global, value: Value) -> Result<Text, OutOfMemory>
    ensures text { IfOk result (λ text. text ≡ language.text_of value) }
{
    match value.into_content() {
        Content::Text(text) => Ok(text),
        other => text_of(alloc, &Value::new(other)),
    }
}
