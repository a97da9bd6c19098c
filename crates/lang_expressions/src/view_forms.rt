//! Which form of view node a key names.
ghost use Rattle.std.specs.Prelude.{◌≡◌};
ghost use Rattle.serde_json.specs.View.{view, members_view};
ghost use Rattle.lang_expressions.specs.ViewForms.{form_of, first_form, form_in};

use serde_json::{Map, Value};

/// What has no view nodes in it.
#[derive(Clone, Copy, Debug, PartialEq, Eq)]
pub enum Leaf {
    Text,
    Use,
    Hole,
}

/// The forms of a view node that is an object.
#[derive(Clone, Copy, Debug, PartialEq, Eq)]
pub enum Form {
    Element,
    List,
    Pick,
    Fragment,
    Boundary,
    Alone(Leaf),
}

#[tactic(auto, unfolding(crate::specs::ViewForms::form_of))]
fn form_of(key: &str) -> Option<Form>
    ensures form { result ≡ form_of key.now }
{
    if key == "el" {
        Some(Form::Element)
    } else if key == "list" {
        Some(Form::List)
    } else if key == "pick" {
        Some(Form::Pick)
    } else if key == "fragment" {
        Some(Form::Fragment)
    } else if key == "boundary" {
        Some(Form::Boundary)
    } else if key == "text" {
        Some(Form::Alone(Leaf::Text))
    } else if key == "use" {
        Some(Form::Alone(Leaf::Use))
    } else if key == "hole" {
        Some(Form::Alone(Leaf::Hole))
    } else {
        None
    }
}

/// The form of the first key of some members that names one.
#[tactic(auto, unfolding(crate::specs::ViewForms::first_form))]
fn first_form(members: &Map<String, Value>) -> Option<Form>
    ensures form { result ≡ first_form (members_view members.now.entries) }
{
    for (key, _value) in members.iter() {
        if let Some(form) = form_of(key.as_str()) {
            return Some(form);
        }
    }
    None
}

/// The form of a view node that is an object.
pub fn form_in(value: &Value) -> Option<Form>
    ensures form { result ≡ form_in (view value.now) }
{
    match value {
        Value::Object(members) => first_form(members),
        _ => None,
    }
}
