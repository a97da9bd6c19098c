//! Which form of expression a key names.
ghost use Rattle.std.specs.Prelude.{◌≡◌};
ghost use Rattle.lang_expressions.specs.Forms.{word_of, operator_of, form_of};

/// What is worth a value without an operand.
#[derive(Clone, Copy, Debug, PartialEq, Eq)]
pub enum Word {
    OwnScope,
    Generation,
    NearestError,
    Payload,
    Me,
}

/// What two operands are joined by.
#[derive(Clone, Copy, Debug, PartialEq, Eq)]
pub enum Pair {
    Add,
    Multiply,
    Equal,
    Less,
}

/// What is done with one operand.
#[derive(Clone, Copy, Debug, PartialEq, Eq)]
pub enum Single {
    Not,
    IsAbsent,
    Parse,
}

/// The forms of an expression that is an object.
#[derive(Clone, Copy, Debug, PartialEq, Eq)]
pub enum Form {
    Get,
    Read,
    LookUp,
    Cat,
    If,
    Two(Pair),
    One(Single),
    Said(Word),
}

#[tactic(auto, unfolding(crate::specs::Forms::word_of))]
fn word_of(key: &str) -> Option<Word>
    ensures word { result ≡ word_of key.now }
{
    if key == "scope" {
        Some(Word::OwnScope)
    } else if key == "generation" {
        Some(Word::Generation)
    } else if key == "error" {
        Some(Word::NearestError)
    } else if key == "payload" {
        Some(Word::Payload)
    } else if key == "me" {
        Some(Word::Me)
    } else {
        None
    }
}

#[tactic(auto, unfolding(crate::specs::Forms::operator_of))]
fn operator_of(key: &str) -> Option<Form>
    ensures operator { result ≡ operator_of key.now }
{
    if key == "add" {
        Some(Form::Two(Pair::Add))
    } else if key == "mul" {
        Some(Form::Two(Pair::Multiply))
    } else if key == "eq" {
        Some(Form::Two(Pair::Equal))
    } else if key == "lt" {
        Some(Form::Two(Pair::Less))
    } else if key == "not" {
        Some(Form::One(Single::Not))
    } else if key == "none" {
        Some(Form::One(Single::IsAbsent))
    } else if key == "parse" {
        Some(Form::One(Single::Parse))
    } else {
        None
    }
}

/// The form of an expression with this key.
#[tactic(auto, unfolding(crate::specs::Forms::form_of))]
pub fn form_of(key: &str) -> Option<Form>
    ensures form { result ≡ form_of key.now }
{
    if key == "get" {
        Some(Form::Get)
    } else if key == "read" {
        Some(Form::Read)
    } else if key == "context" {
        Some(Form::LookUp)
    } else if key == "cat" {
        Some(Form::Cat)
    } else if key == "if" {
        Some(Form::If)
    } else if let Some(word) = word_of(key) {
        Some(Form::Said(word))
    } else {
        operator_of(key)
    }
}
