//! What the list is made of: its components, its values, and what its listeners do.
ghost use Rattle.std.specs.Prelude.{◌≡◌, IfOk};
ghost use Rattle.std.specs.Option.{option_copied};
ghost use Rattle.examples_list.specs.Meaning as meaning;

use examples_library::{Made, Typed};
use rt_author::{List, Part, Text};
use std::alloc::Global;

/// A component.
#[derive(Clone, Copy, PartialEq, Eq)]
pub enum Component {
    /// The field, a button, and the items.
    Whole,
    /// The library's field.
    Field,
}

#[rattlefmt::skip]
impl Part for Component {
    fn same(&self, other: &Component) -> bool { *self == *other }
    fn copy(&self, _alloc: Global) -> Made<Component> { Ok(*self) }
}

/// A value: the number of a cell that a hook keeps, what was typed, or the items.
#[derive(Drop)]
pub enum Value {
    Cell(u64),
    Words(Text),
    Items(List<Text>),
}

impl Part for Value {
    fn same(&self, other: &Value) -> bool {
        match (self, other) {
            (Value::Cell(left), Value::Cell(right)) => *left == *right,
            (Value::Words(left), Value::Words(right)) => left.same(right),
            (Value::Items(left), Value::Items(right)) => left.same(right),
            _ => false,
        }
    }

    fn copy(&self, alloc: Global) -> Made<Value> {
        match self {
            Value::Cell(cell) => Ok(Value::Cell(*cell)),
            Value::Words(words) => Ok(Value::Words(words.copy(alloc)?)),
            Value::Items(items) => Ok(Value::Items(items.copy(alloc)?)),
        }
    }
}

/// The items, of a value that was read.
pub(crate) fn items_in(alloc: Global, value: Option<&Option<Value>>) -> Made<Option<List<Text>>>
    ensures items { IfOk result (λ items. items ≡ meaning.items_in (option_copied value.entry)) }
{
    match value {
        Some(Some(Value::Items(items))) => Ok(Some(items.copy(alloc)?)),
        _ => Ok(None),
    }
}

/// What a listener does.
#[derive(Clone, Copy, PartialEq, Eq)]
pub enum Change {
    /// What was typed becomes an item.
    Add { draft: u64, items: u64 },
    /// The item at a position is taken out.
    Remove { items: u64, at: u64 },
    /// What the listener of a field does.
    Field(Typed),
}

#[rattlefmt::skip]
impl Part for Change {
    fn same(&self, other: &Change) -> bool { *self == *other }
    fn copy(&self, _alloc: Global) -> Made<Change> { Ok(*self) }
}
