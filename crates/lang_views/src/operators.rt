//! The operators on values.
ghost use Rattle.std.specs.Prelude.{◌≡◌};
ghost use Rattle.std.specs.Prelude as prelude;
ghost use Rattle.rt_language.specs.Values.{added, multiplied, compared, flag, same_value, is_true};
ghost use Rattle.rt_language.specs.Values as language;

use crate::value::{Content, Value};
use rt_values::Part;

/// The most items that a list has.
const MOST_ITEMS: u64 = 10_000;

/// The sum of two numbers, which stops at the ends of `i64`; none unless both are numbers.
pub fn add(left: &Value, right: &Value) -> Value
    ensures { result ≡ added left.now right.now }
{
    match (left.content(), right.content()) {
        (Content::Number(left), Content::Number(right)) => {
            Value::new(Content::Number(left.saturating_add(*right)))
        }
        _ => Value::none(),
    }
}

/// The product of two numbers, which stops at the ends of `i64`; none unless both are numbers.
pub fn multiply(left: &Value, right: &Value) -> Value
    ensures { result ≡ multiplied left.now right.now }
{
    match (left.content(), right.content()) {
        (Content::Number(left), Content::Number(right)) => {
            Value::new(Content::Number(left.saturating_mul(*right)))
        }
        _ => Value::none(),
    }
}

/// 1 where the left number is below the right one, else 0; none unless both are numbers.
pub fn less(left: &Value, right: &Value) -> Value
    ensures { result ≡ compared left.now right.now }
{
    match (left.content(), right.content()) {
        (Content::Number(left), Content::Number(right)) => Value::flag(*left < *right),
        _ => Value::none(),
    }
}

/// 1 where kind and value are equal, else 0.
pub fn equal(left: &Value, right: &Value) -> Value
    ensures { result ≡ flag (same_value left.now right.now) }
{
    Value::flag(left.same(right))
}

/// 1 where the value isn't true, else 0.
pub fn not(value: &Value) -> Value
    ensures { result ≡ flag (prelude.not (is_true value.now)) }
{
    Value::flag(!value.is_true())
}

/// 1 where the value is none, else 0.
pub fn is_absent(value: &Value) -> Value
    ensures { result ≡ flag (language.is_absent value.now) }
{
    match value.content() {
        Content::None => Value::flag(true),
        _ => Value::flag(false),
    }
}

/// How many items a list of this count has: at most 10,000, and none for what is no number or is
/// below 0.
pub fn item_count(value: &Value) -> u64
    ensures { result ≡ language.item_count value.now }
{
    match value.content() {
        Content::Number(number) if *number >= 0 => (*number as u64).min(MOST_ITEMS),
        _ => 0,
    }
}
