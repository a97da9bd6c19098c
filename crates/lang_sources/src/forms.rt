//! Which form of statement a key names, and where it may stand.
ghost use Rattle.std.specs.Prelude.{◌≡◌, option_map};
ghost use Rattle.serde_json.specs.View.{view, members_view};
ghost use Rattle.lang_sources.specs.Forms.{binder_of, calling_of, word_of, plain_of, form_of, is_body, is_step, calling_stands, word_stands, plain_stands, stands, first_form, form_in};

use serde_json::{Map, Value};

/// Where a statement stands.
#[derive(Clone, Copy, Debug, PartialEq, Eq)]
pub enum Place {
    Body,
    Action,
    Step,
}

/// What binds a name to what expressions give.
#[derive(Clone, Copy, Debug, PartialEq, Eq)]
pub enum Binder {
    Let,
    Cell,
    Hook,
    Memo,
    Resource,
}

/// When an action is called.
#[derive(Clone, Copy, Debug, PartialEq, Eq)]
pub enum Calling {
    AtRemoval,
    BeforeRender,
    AfterRender,
    AsEffect,
    OnceResolved,
}

/// What stands with 0.
#[derive(Clone, Copy, Debug, PartialEq, Eq)]
pub enum Word {
    Freeze,
    Clear,
    Stop,
    Prevent,
    Stay,
}

/// What binds no name and has no statements in it.
#[derive(Clone, Copy, Debug, PartialEq, Eq)]
pub enum Plain {
    Calls(Calling),
    Says(Word),
    Mark,
    Throw,
    Fail,
    Forget,
    Suspend,
    Provide,
    Write,
    Act,
}

/// The forms of a statement.
#[derive(Clone, Copy, Debug, PartialEq, Eq)]
pub enum StatementForm {
    Binds(Binder),
    Spawn,
    When,
    Does(Plain),
}

#[tactic(auto, unfolding(crate::specs::Forms::binder_of))]
fn binder_of(key: &str) -> Option<Binder>
    ensures binder { result ≡ binder_of key.now }
{
    if key == "let" {
        Some(Binder::Let)
    } else if key == "cell" {
        Some(Binder::Cell)
    } else if key == "hook" {
        Some(Binder::Hook)
    } else if key == "memo" {
        Some(Binder::Memo)
    } else if key == "resource" {
        Some(Binder::Resource)
    } else {
        None
    }
}

#[tactic(auto, unfolding(crate::specs::Forms::calling_of))]
fn calling_of(key: &str) -> Option<Calling>
    ensures calling { result ≡ calling_of key.now }
{
    if key == "drop" {
        Some(Calling::AtRemoval)
    } else if key == "before" {
        Some(Calling::BeforeRender)
    } else if key == "after" {
        Some(Calling::AfterRender)
    } else if key == "effect" {
        Some(Calling::AsEffect)
    } else if key == "resolved" {
        Some(Calling::OnceResolved)
    } else {
        None
    }
}

#[tactic(auto, unfolding(crate::specs::Forms::word_of))]
fn word_of(key: &str) -> Option<Word>
    ensures word { result ≡ word_of key.now }
{
    if key == "freeze" {
        Some(Word::Freeze)
    } else if key == "clear" {
        Some(Word::Clear)
    } else if key == "stop" {
        Some(Word::Stop)
    } else if key == "prevent" {
        Some(Word::Prevent)
    } else if key == "stay" {
        Some(Word::Stay)
    } else {
        None
    }
}

#[tactic(auto, unfolding(crate::specs::Forms::plain_of))]
fn plain_of(key: &str) -> Option<Plain>
    ensures plain { result ≡ plain_of key.now }
{
    if key == "mark" {
        Some(Plain::Mark)
    } else if key == "throw" {
        Some(Plain::Throw)
    } else if key == "fail" {
        Some(Plain::Fail)
    } else if key == "forget" {
        Some(Plain::Forget)
    } else if key == "suspend" {
        Some(Plain::Suspend)
    } else if key == "provide" {
        Some(Plain::Provide)
    } else if key == "write" {
        Some(Plain::Write)
    } else if key == "act" {
        Some(Plain::Act)
    } else if let Some(calling) = calling_of(key) {
        Some(Plain::Calls(calling))
    } else {
        match word_of(key) {
            Some(word) => Some(Plain::Says(word)),
            None => None,
        }
    }
}

/// The form of the statements with this key.
#[tactic(auto, unfolding(crate::specs::Forms::form_of))]
fn form_of(key: &str) -> Option<StatementForm>
    ensures form { result ≡ form_of key.now }
{
    if key == "spawn" {
        Some(StatementForm::Spawn)
    } else if key == "when" {
        Some(StatementForm::When)
    } else if let Some(binder) = binder_of(key) {
        Some(StatementForm::Binds(binder))
    } else {
        match plain_of(key) {
            Some(plain) => Some(StatementForm::Does(plain)),
            None => None,
        }
    }
}

fn is_body(place: Place) -> bool
    ensures body { result ≡ is_body place }
{
    match place {
        Place::Body => true,
        Place::Action | Place::Step => false,
    }
}

fn is_step(place: Place) -> bool
    ensures step { result ≡ is_step place }
{
    match place {
        Place::Step => true,
        Place::Body | Place::Action => false,
    }
}

fn calling_stands(place: Place, calling: Calling) -> bool
    ensures stands { result ≡ calling_stands place calling }
{
    match calling {
        Calling::AtRemoval | Calling::BeforeRender | Calling::AfterRender => is_body(place),
        Calling::AsEffect | Calling::OnceResolved => true,
    }
}

fn word_stands(place: Place, word: Word) -> bool
    ensures stands { result ≡ word_stands place word }
{
    match word {
        Word::Freeze | Word::Clear => true,
        Word::Stop | Word::Prevent => !is_body(place),
        Word::Stay => is_step(place),
    }
}

fn plain_stands(place: Place, plain: Plain) -> bool
    ensures stands { result ≡ plain_stands place plain }
{
    match plain {
        Plain::Calls(calling) => calling_stands(place, calling),
        Plain::Says(word) => word_stands(place, word),
        Plain::Fail | Plain::Suspend => is_body(place),
        Plain::Mark | Plain::Throw | Plain::Forget => true,
        Plain::Provide | Plain::Write | Plain::Act => true,
    }
}

/// Whether statements of a form may stand in a place.
pub fn stands(place: Place, form: StatementForm) -> bool
    ensures stands { result ≡ stands place form }
{
    match form {
        StatementForm::Binds(Binder::Let) | StatementForm::Spawn | StatementForm::When => true,
        StatementForm::Binds(Binder::Cell | Binder::Hook | Binder::Memo | Binder::Resource) => {
            is_body(place)
        }
        StatementForm::Does(plain) => plain_stands(place, plain),
    }
}

/// The first key of some members that names a form, and the form.
#[tactic(auto, unfolding(crate::specs::Forms::first_form))]
fn first_form(members: &Map<String, Value>) -> Option<(&str, StatementForm)>
    ensures form { option_map (λ form. (form.0.now, form.1)) result
        ≡ first_form (members_view members.now.entries) }
{
    for (key, _value) in members.iter() {
        if let Some(form) = form_of(key.as_str()) {
            return Some((key.as_str(), form));
        }
    }
    None
}

/// The key of a statement that names its form, and the form.
pub fn form_in(value: &Value) -> Option<(&str, StatementForm)>
    ensures form { option_map (λ form. (form.0.now, form.1)) result ≡ form_in (view value.now) }
{
    match value {
        Value::Object(members) => first_form(members),
        _ => None,
    }
}
