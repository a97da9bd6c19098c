//! Values.
ghost use Rattle.std.specs.Prelude.{◌≡◌, IfOk, Bool};
ghost use Rattle.rt_language.specs.Values.{hook_kind, is_true, flag, counted, same_value};
ghost use Rattle.lang_views.specs.Seen.{value_of};

use rt_values::{OutOfMemory, Part, Text};
use std::alloc::Global;
use std::marker::Model;

/// What a value holds.
#[derive(Debug, Drop)]
pub enum Content {
    None,
    Number(i64),
    Text(Text),
    /// The number of a cell.
    Cell(u64),
    /// The number of a task.
    Task(u64),
}

/// A value: of a variable, a cell, a hook or a context, or what an event carries.
#[derive(Debug, Drop)]
pub struct Value {
    content: Content,
}

impl Model for Value {
    ghost use Rattle.rt_language.specs.Values as language;

    ghost Value = { language.Value };

    ghost use Rattle.lang_views.specs.Seen.{value_of};

    ghost view = { λ value. value_of value.content };
}

impl Value {
    /// A value that holds this.
    pub fn new(content: Content) -> Value
        ensures { result ≡ value_of content }
    {
        Value { content }
    }

    /// None.
    pub fn none() -> Value
        ensures { result ≡ value_of Content.None }
    {
        Value::new(Content::None)
    }

    /// The number of a cell.
    pub fn cell(number: u64) -> Value
        ensures { result ≡ value_of (Content.Cell number) }
    {
        Value::new(Content::Cell(number))
    }

    /// The number of a task.
    pub fn task(number: u64) -> Value
        ensures { result ≡ value_of (Content.Task number) }
    {
        Value::new(Content::Task(number))
    }

    /// What the value holds.
    pub fn content(&self) -> &Content
        ensures { value_of result.now ≡ self.now }
    {
        &self.content
    }

    /// What the value held, moved.
    pub fn into_content(self) -> Content
        ensures { value_of result ≡ self }
    {
        let Value { content } = self;
        content
    }

    /// 1 or 0.
    pub fn flag(is_so: bool) -> Value
        ensures { result ≡ flag is_so }
    {
        Value::new(Content::Number(if is_so { 1 } else { 0 }))
    }

    /// A number that is counted; above the greatest `i64` it is that.
    pub fn counted(number: u64) -> Value
        ensures { result ≡ counted number }
    {
        Value::new(Content::Number(number.min(i64::MAX as u64) as i64))
    }

    /// A number other than 0. No other value is true.
    pub fn is_true(&self) -> bool
        ensures { result ≡ is_true self.now }
    {
        match self.content {
            Content::Number(number) => number != 0,
            _ => false,
        }
    }

    /// The kind of the hook that holds the value.
    pub fn hook_kind(&self) -> u32
        ensures { result ≡ hook_kind self.now }
    {
        match self.content {
            Content::None => 0,
            Content::Number(_) => 1,
            Content::Text(_) => 2,
            Content::Cell(_) => 3,
            Content::Task(_) => 4,
        }
    }
}

impl Part for Content {
    fn same(&self, other: &Content) -> bool {
        match (self, other) {
            (Content::None, Content::None) => true,
            (Content::Number(number), Content::Number(other)) => *number == *other,
            (Content::Text(text), Content::Text(other)) => text.same(other),
            (Content::Cell(cell), Content::Cell(other)) => *cell == *other,
            (Content::Task(task), Content::Task(other)) => *task == *other,
            _ => false,
        }
    }

    fn copy(&self, alloc: Global) -> Result<Content, OutOfMemory> {
        Ok(match self {
            Content::None => Content::None,
            Content::Number(number) => Content::Number(*number),
            Content::Text(text) => Content::Text(text.copy(alloc)?),
            Content::Cell(cell) => Content::Cell(*cell),
            Content::Task(task) => Content::Task(*task),
        })
    }
}

impl Part for Value {
    fn same(&self, other: &Value) -> bool {
        self.content.same(&other.content)
    }

    fn copy(&self, alloc: Global) -> Result<Value, OutOfMemory> {
        Ok(Value {
            content: self.content.copy(alloc)?,
        })
    }
}
