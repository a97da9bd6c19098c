//! What is said of a fault: its place, what was wanted there and what was found.

use crate::forms::{BODY, Form, LOADING, LOOKING, STEP, Table};
use crate::leaves::{leaf_words, members_words, row_words, table_words};
use crate::tables::forms_of;
use crate::walk::{Step, Walk, Wanted};
use rt_values::{OutOfMemory, is_name};
use serde_json::Value;
use std::alloc::Global;

/// How many letters of a text are shown at most.
const SHOWN: usize = 60;

/// The front of a text, as much of it as is shown.
fn front(alloc: Global, text: &str) -> Result<String, OutOfMemory> {
    let mut shown = String::new(alloc);
    for (count, letter) in text.chars().enumerate() {
        if count == SHOWN {
            shown.push_str("..")?;
            return Ok(shown);
        }
        shown.push(letter)?;
    }
    Ok(shown)
}

/// A text as JSON has it, so that it stays in its line and its ends are seen.
pub(crate) fn quoted(alloc: Global, text: &str) -> Result<String, OutOfMemory> {
    let shown = Value::String(front(alloc, text)?);
    Ok(shown.to_string(alloc)?)
}

/// A key as it stands in a place: quoted, unless letters, digits, - and _ are all that it has.
fn put_key(alloc: Global, line: &mut String, key: &str) -> Result<(), OutOfMemory> {
    if is_name(key) && key.len() <= SHOWN {
        line.push_str(key)?;
    } else {
        line.push_str(quoted(alloc, key)?.as_str())?;
    }
    Ok(())
}

fn put_step(alloc: Global, line: &mut String, step: Step) -> Result<(), OutOfMemory> {
    match step {
        Step::Key(key) => {
            if !line.is_empty() {
                line.push_str(".")?;
            }
            put_key(alloc, line, key)
        }
        Step::Item(place) => {
            let item = format!(in alloc; "[{place}]")?;
            line.push_str(item.as_str())?;
            Ok(())
        }
    }
}

fn place_of(alloc: Global, steps: &[Step]) -> Result<String, OutOfMemory> {
    let mut line = String::new(alloc);
    for left in 0..steps.len() {
        put_step(alloc, &mut line, steps[steps.len() - 1 - left])?;
    }
    if line.is_empty() {
        line.push_str("the source")?;
    }
    Ok(line)
}

/// The keys that a form knows, each behind a space.
fn put_keys(line: &mut String, form: &Form) -> Result<(), OutOfMemory> {
    for entry in form.3 {
        line.push_str(" ")?;
        line.push_str(entry.key())?;
    }
    Ok(())
}

/// The keys that name the forms of a table, each behind a space and once.
fn put_forms(line: &mut String, table: Table) -> Result<(), OutOfMemory> {
    let mut last = "";
    for form in forms_of(table) {
        if form.0 != last {
            line.push_str(" ")?;
            line.push_str(form.0)?;
        }
        last = form.0;
    }
    Ok(())
}

fn one_of(alloc: Global, table: Table) -> Result<String, OutOfMemory> {
    let mut line = String::from_str(alloc, table_words(table))?;
    let forms = forms_of(table);
    if forms.len() == 1 {
        line.push_str(" with the keys")?;
        put_keys(&mut line, &forms[0])?;
    } else {
        line.push_str(" with one of the keys")?;
        put_forms(&mut line, table)?;
    }
    Ok(line)
}

fn standing(places: u8) -> &'static str {
    if places == BODY {
        "a statement that stands in bodies"
    } else if places == STEP {
        "a statement that stands in steps"
    } else if places == LOOKING {
        "an expression that only looks at cells and contexts"
    } else if places == LOADING {
        "an expression that looks at no cell and no context"
    } else {
        "a statement that stands in actions"
    }
}

fn wanted_of(alloc: Global, wanted: Wanted) -> Result<String, OutOfMemory> {
    match wanted {
        Wanted::Leaf(leaf) => Ok(String::from_str(alloc, leaf_words(leaf))?),
        Wanted::Row(row) => Ok(String::from_str(alloc, row_words(row))?),
        Wanted::Members(members) => Ok(String::from_str(alloc, members_words(members))?),
        Wanted::One(table) => one_of(alloc, table),
        Wanted::Standing(places) => Ok(String::from_str(alloc, standing(places))?),
        Wanted::NoKeyBut(form) => {
            let mut line = String::from_str(alloc, "no key but")?;
            put_keys(&mut line, form)?;
            Ok(line)
        }
        Wanted::Key(key) => Ok(format!(in alloc; "the key {key}")?),
        Wanted::Count(1, count) => Ok(format!(in alloc; "a list of 1 expression, not {count}")?),
        Wanted::Count(wanted, count) => {
            Ok(format!(in alloc; "a list of {wanted} expressions, not {count}")?)
        }
        Wanted::Literals(count) => {
            Ok(format!(in alloc; "as many literals as the root has params: {count}")?)
        }
        Wanted::Another => Ok(String::from_str(alloc, "a name that no param before it has")?),
    }
}

/// What was found: a single value itself, of a long text its front; of lists and objects how much
/// they have.
fn found_of(alloc: Global, value: &Value) -> Result<String, OutOfMemory> {
    match value {
        Value::String(text) => quoted(alloc, text.as_str()),
        Value::Array(values) => Ok(format!(in alloc; "a list of {}", values.len())?),
        Value::Object(members) => {
            let mut line = String::from_str(alloc, "an object")?;
            if let Some((key, _value)) = members.iter().next() {
                line.push_str(" with the key ")?;
                line.push_str(quoted(alloc, key.as_str())?.as_str())?;
            }
            Ok(line)
        }
        other => Ok(other.to_string(alloc)?),
    }
}

/// The line of a fault.
pub(crate) fn line_of(alloc: Global, walk: &Walk) -> Result<String, OutOfMemory> {
    let mut line = place_of(alloc, walk.steps.as_slice())?;
    line.push_str(": wanted ")?;
    line.push_str(wanted_of(alloc, walk.wanted)?.as_str())?;
    if let Some(value) = walk.found {
        line.push_str(", found ")?;
        line.push_str(found_of(alloc, value)?.as_str())?;
    }
    Ok(line)
}
