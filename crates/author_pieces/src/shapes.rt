//! The constant part of a piece.
ghost use Rattle.std.specs.Prelude.{◌≡◌, ◌++◌, IfOk};

use rt_values::{List, OutOfMemory, Text};

/// A node of a piece, without what stands in its slots and without their numbers.
#[derive(Drop)]
pub enum Shape {
    Element {
        tag: Text,
        attrs: List<ShapeAttribute>,
        kids: List<Shape>,
    },
    Words(Text),
    /// A node slot.
    Hole,
}

/// An attribute of an element.
#[derive(Drop)]
pub enum ShapeAttribute {
    Fixed { name: Text, value: Text },
    /// An attribute slot.
    Open,
}

/// A list, and after it another.
pub(crate) fn together<T: Drop>(first: List<T>, second: List<T>) -> Result<List<T>, OutOfMemory>
    ensures list { IfOk result (λ list. list ≡ first ++ second) }
{
    let mut list = first;
    list.append(second)?;
    Ok(list)
}
