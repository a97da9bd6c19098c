//! The values of the application.
ghost use Rattle.std.specs.Prelude.{◌≡◌, IfOk};
ghost use Rattle.examples_derived.specs.Values as values;

use rt_author::{OutOfMemory, Part, Text};
use std::alloc::Global;

/// What is made, or want of memory.
pub type Made<T> = Result<T, OutOfMemory>;

/// What a cell or a hook holds.
#[derive(Drop)]
pub enum Value {
    /// A number; of a hook that of a cell.
    Number(u64),
    Words(Text),
}

impl Part for Value {
    fn same(&self, other: &Value) -> bool {
        match (self, other) {
            (Value::Number(left), Value::Number(right)) => *left == *right,
            (Value::Words(left), Value::Words(right)) => left.same(right),
            _ => false,
        }
    }

    fn copy(&self, alloc: Global) -> Made<Value> {
        match self {
            Value::Number(number) => Ok(Value::Number(*number)),
            Value::Words(words) => Ok(Value::Words(words.copy(alloc)?)),
        }
    }
}

impl Value {
    /// Whether it is 0, or no number.
    pub fn is_zero(&self) -> bool
        ensures is_zero { result ≡ values.is_zero self.now }
    {
        match self {
            Value::Number(number) => *number == 0,
            Value::Words(_) => true,
        }
    }

    /// What it is in words.
    pub fn words(&self, alloc: Global) -> Made<Text>
        ensures words { IfOk result (λ words. words ≡ values.words self.now) }
    {
        match self {
            Value::Number(number) => {
                let number = *number;
                Ok(Text::from_string(format!(in alloc; "{number}")?))
            }
            Value::Words(words) => Ok(words.copy(alloc)?),
        }
    }
}

/// What a cell holds that has no value yet.
pub fn no_words(alloc: Global) -> Made<Value>
    ensures empty { IfOk result (λ value. value ≡ values.empty) }
{
    Ok(Value::Words(Text::from_str(alloc, "")?))
}

/// What was read of a cell; no words where it is gone.
pub fn or_empty(alloc: Global, read: Option<Value>) -> Made<Value>
    ensures value { IfOk result (λ value. value ≡ values.or_empty read) }
{
    match read {
        Some(value) => Ok(value),
        None => Ok(no_words(alloc)?),
    }
}
