//! What an object has at a key.
ghost use Rattle.std.specs.Prelude.{◌≡◌, option_map};
ghost use Rattle.serde_json.specs.View.{view, items_view};
ghost use Rattle.lang_expressions.specs.Fields.{text_at, list_at, list_or_empty, whole, whole_at, is_zero, is_zero_at};

use serde_json::Value;

/// The text at a key.
pub fn text_at<'a>(value: &'a Value, key: &str) -> Option<&'a str>
    ensures text { option_map (λ text. text.now) result ≡ text_at key.now (view value.now) }
{
    value.get(key).and_then(Value::as_str)
}

/// The list at a key.
pub fn list_at<'a>(value: &'a Value, key: &str) -> Option<&'a [Value]>
    ensures list { option_map (λ list. items_view list.now) result
        ≡ list_at key.now (view value.now) }
{
    match value.get(key) {
        None => None,
        Some(found) => match found.as_array() {
            Some(list) => Some(list.as_slice()),
            None => None,
        },
    }
}

/// The list at a key, empty where the object has no such key.
pub fn list_or_empty<'a>(value: &'a Value, key: &str) -> Option<&'a [Value]>
    ensures list { option_map (λ list. items_view list.now) result
        ≡ list_or_empty key.now (view value.now) }
{
    match value.get(key) {
        None => Some(&[]),
        Some(found) => match found.as_array() {
            Some(list) => Some(list.as_slice()),
            None => None,
        },
    }
}

/// The whole number of at least 0 that a value is. None above those of `i64` is one.
pub fn whole(value: &Value) -> Option<u64>
    ensures number { result ≡ whole (view value.now) }
{
    if value.as_i64().is_none() {
        return None;
    }
    value.as_u64()
}

/// The whole number of at least 0 at a key.
pub fn whole_at(value: &Value, key: &str) -> Option<u64>
    ensures number { result ≡ whole_at key.now (view value.now) }
{
    match value.get(key) {
        None => None,
        Some(found) => whole(found),
    }
}

/// Whether a value is the whole number 0.
pub fn is_zero(value: &Value) -> bool
    ensures zero { result ≡ is_zero (view value.now) }
{
    match value.as_u64() {
        Some(number) => number == 0,
        None => false,
    }
}

/// Whether the whole number 0 stands at a key.
pub fn is_zero_at(value: &Value, key: &str) -> bool
    ensures zero { result ≡ is_zero_at key.now (view value.now) }
{
    match value.get(key) {
        None => false,
        Some(found) => is_zero(found),
    }
}
