//! Single values: whether one is what is wanted, and how that is called.

use crate::forms::{Group, Leaf, Members, Row, Table};
use lang_expressions::{is_zero, whole};
use rt_values::is_name;
use serde_json::Value;

/// The key at which a group stands in a source.
pub(crate) fn key_of(group: Group) -> &'static str {
    match group {
        Group::Components => "components",
        Group::Actions => "actions",
        Group::Tasks => "tasks",
    }
}

/// What a source defines under a name.
pub(crate) fn defined<'a>(source: &'a Value, group: Group, name: &str) -> Option<&'a Value> {
    match source.get(key_of(group)) {
        Some(members) => members.get(name),
        None => None,
    }
}

/// How many params has what is defined under the name at a key.
pub(crate) fn params_at(source: &Value, group: Group, value: &Value, key: &str) -> u64 {
    let Some(name) = value.get(key).and_then(Value::as_str) else {
        return 0;
    };
    let Some(found) = defined(source, group, name) else {
        return 0;
    };
    match found.get("params").and_then(Value::as_array) {
        Some(params) => params.len() as u64,
        None => 0,
    }
}

/// Whether a text is one of some words.
pub(crate) fn is_among(words: &[&str], value: &Value) -> bool {
    let Some(text) = value.as_str() else {
        return false;
    };
    for word in words {
        if *word == text {
            return true;
        }
    }
    false
}

static KINDS: [&str; 3] = ["client", "isomorphic", "forever"];

static ACTS: [&str; 4] = ["wake", "cancel", "pause", "resume"];

static SIDES: [&str; 2] = ["error", "suspense"];

/// Whether a value is what is wanted, but for names that are bound.
pub(crate) fn is_fit(source: &Value, leaf: Leaf, value: &Value) -> bool {
    match leaf {
        Leaf::Anything => true,
        Leaf::Text | Leaf::Bound => value.is_string(),
        Leaf::Name => match value.as_str() {
            Some(text) => is_name(text),
            None => false,
        },
        Leaf::Zero => is_zero(value),
        Leaf::Number => whole(value).is_some(),
        Leaf::Whole => value.is_i64(),
        Leaf::Literal => value.is_i64() || value.is_string(),
        Leaf::Kind => is_among(&KINDS, value),
        Leaf::Act => is_among(&ACTS, value),
        Leaf::Side => is_among(&SIDES, value),
        Leaf::Called(group) => match value.as_str() {
            Some(name) => defined(source, group, name).is_some(),
            None => false,
        },
    }
}

/// What a single value is called that is wanted.
pub(crate) fn leaf_words(leaf: Leaf) -> &'static str {
    match leaf {
        Leaf::Anything => "anything",
        Leaf::Text => "a text",
        Leaf::Name => NAME,
        Leaf::Zero => "0",
        Leaf::Number => "a whole number of at least 0",
        Leaf::Whole => "a whole number of 64 bits with a sign",
        Leaf::Literal => "a text or a whole number of 64 bits with a sign",
        Leaf::Bound => "the name of a variable that is bound here",
        Leaf::Kind => "client, isomorphic or forever",
        Leaf::Act => "wake, cancel, pause or resume",
        Leaf::Side => "error or suspense",
        Leaf::Called(Group::Components) => "the name of a component",
        Leaf::Called(Group::Actions) => "the name of an action",
        Leaf::Called(Group::Tasks) => "the name of a task",
    }
}

/// What a tag, a namespace and the name of an attribute are.
pub(crate) const NAME: &str = "ASCII letters, digits, - and _, at least one";

/// What a list is called that is wanted.
pub(crate) fn row_words(row: Row) -> &'static str {
    match row {
        Row::Expressions | Row::Counted(_) | Row::Handed(_, _) => "a list of expressions",
        Row::Statements => "a list of statements",
        Row::Steps => "a list of steps, each a list of statements",
        Row::Nodes => "a list of view nodes",
        Row::Pick => "a list of an expression and two lists of view nodes",
        Row::Params => "a list of names",
        Row::Props => "a list of literals",
        Row::Inputs => "a list of inputs",
        Row::Messages => "a list of messages",
        Row::Posted => "a list of at most 1,000,000 messages",
        Row::Posts => "at most 1,000 lists of messages",
    }
}

/// What objects are called that have some members by name.
pub(crate) fn members_words(members: Members) -> &'static str {
    match members {
        Members::Of(_) => "an object by name",
        Members::Attributes => "an object of attributes by name",
        Members::Listeners => "an object of listeners by name",
    }
}

/// What an object is called that a table describes.
pub(crate) fn table_words(table: Table) -> &'static str {
    match table {
        Table::Source | Table::Outline => "an object",
        Table::Statement => "a statement: an object",
        Table::Expression => "an expression: a whole number, a text, or an object",
        Table::Node => "a view node: a text, or an object",
        Table::Input => "an input: an object",
        Table::Message => "a message: an object",
        _ => "an object",
    }
}
