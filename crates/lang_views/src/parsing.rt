//! The number that a text writes.
ghost use Rattle.std.specs.Prelude.{◌≡◌};
ghost use Rattle.rt_language.specs.Values.{parsed, digits_of, digits_after, not_above, not_below};
ghost use Rattle.rt_language.specs.Values as language;
ghost use Rattle.lang_views.specs.Digits.{at_most, next_number};

use crate::value::{Content, Value};

/// The greatest number.
const GREATEST: u64 = 9_223_372_036_854_775_807;

/// The number that a text writes: an optional `-` and digits, within `i64`. None of any other text,
/// and of what is no text.
pub fn parse(value: &Value) -> Value
    ensures { result ≡ parsed value.now }
{
    match value.content() {
        Content::Text(text) => number_in(text.as_bytes()),
        _ => Value::none(),
    }
}

/// The number that these bytes write.
fn number_in(bytes: &[u8]) -> Value
    ensures { result ≡ language.number_in bytes.now }
{
    match bytes.first() {
        None => Value::none(),
        Some(b'-') => below(&bytes[1..]),
        Some(_) => above(bytes),
    }
}

/// The number that digits write.
fn above(digits: &[u8]) -> Value
    ensures { result ≡ not_above (digits_of digits.now) }
{
    if digits.is_empty() {
        return Value::none();
    }
    match number_up_to(digits, GREATEST) {
        Some(number) => Value::new(Content::Number(number as i64)),
        None => Value::none(),
    }
}

/// Minus the number that digits write.
fn below(digits: &[u8]) -> Value
    ensures { result ≡ not_below (digits_of digits.now) }
{
    if digits.is_empty() {
        return Value::none();
    }
    match number_up_to(digits, GREATEST + 1) {
        Some(number) if number > GREATEST => Value::new(Content::Number(i64::MIN)),
        Some(number) => Value::new(Content::Number(-(number as i64))),
        None => Value::none(),
    }
}

/// The number that digits write, where there is no other byte and it isn't above the most.
#[tactic(auto, using(crate::proofs::Digits::reading))]
fn number_up_to(digits: &[u8], most: u64) -> Option<u64>
    ensures { result ≡ at_most most (digits_after 0 digits.now) }
{
    let mut number = 0;
    for digit in digits {
        match with_digit(number, *digit, most) {
            Some(longer) => number = longer,
            None => return None,
        }
    }
    Some(number)
}

/// A number with one more digit after its own.
fn with_digit(number: u64, digit: u8, most: u64) -> Option<u64>
    ensures { result ≡ at_most most (next_number number digit) }
{
    if !digit.is_ascii_digit() {
        return None;
    }
    let next = number as u128 * 10 + (digit - b'0') as u128;
    if next > most as u128 {
        return None;
    }
    Some(next as u64)
}
