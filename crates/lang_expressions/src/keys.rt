//! Which keys an object has.
ghost use Rattle.std.specs.Prelude.{◌≡◌, map, option_map};
ghost use Rattle.serde_json.specs.View.{view, members_view};
ghost use Rattle.lang_expressions.specs.Keys.{is_one_of, keys_within, is_object_of, only_member, only_of};

use serde_json::{Map, Value};

/// Whether the value is an object with no key beside these.
pub fn is_object_of(value: &Value, known: &[&str]) -> bool
    ensures keys { result ≡ is_object_of (map (λ key. key.now) known.now) (view value.now) }
{
    match value {
        Value::Object(members) => keys_within(members, known),
        _ => false,
    }
}

#[tactic(auto, unfolding(crate::specs::Keys::keys_within))]
fn keys_within(members: &Map<String, Value>, known: &[&str]) -> bool
    ensures keys { result ≡ keys_within (map (λ key. key.now) known.now)
        (members_view members.now.entries) }
{
    for (key, _value) in members.iter() {
        if !is_one_of(key.as_str(), known) {
            return false;
        }
    }
    true
}

#[tactic(auto, using(crate::proofs::Steps::one_of_next))]
fn is_one_of(key: &str, known: &[&str]) -> bool
    ensures key { result ≡ is_one_of (map (λ key. key.now) known.now) key.now }
{
    for name in known {
        if *name == key {
            return true;
        }
    }
    false
}

/// The key and the value of an object's only member.
pub fn only_member(value: &Value) -> Option<(&str, &Value)>
    ensures member { option_map (λ member. (member.0.now, view member.1.now)) result
        ≡ only_member (view value.now) }
{
    match value {
        Value::Object(members) => only_of(members),
        _ => None,
    }
}

fn only_of(members: &Map<String, Value>) -> Option<(&str, &Value)>
    ensures member { option_map (λ member. (member.0.now, view member.1.now)) result
        ≡ only_of (members_view members.now.entries) }
{
    let mut rest = members.iter();
    let (key, value) = rest.next()?;
    match rest.next() {
        None => Some((key.as_str(), value)),
        Some(_) => None,
    }
}
