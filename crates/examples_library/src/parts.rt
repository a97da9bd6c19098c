//! What the library is made of: its types, what a field is given, and what its listener does.
ghost use Rattle.std.specs.Prelude.{◌≡◌, IfOk};
ghost use Rattle.examples_library.specs.Meaning as meaning;

use rt_author::{NoData, OutOfMemory, Part, Parts, Text};
use std::alloc::Global;

/// The library, by its types. Its one component is the field.
#[derive(Drop)]
pub struct Library;

impl Parts for Library {
    type Component = NoData;

    type Props = FieldProps;

    /// What was typed.
    type Value = Text;

    type Handler = Typed;

    type TaskState = NoData;

    type Effect = NoData;

    /// What is typed.
    type Payload = Text;
}

/// What is made, or want of memory.
pub type Made<T> = Result<T, OutOfMemory>;

/// What a field is given.
#[derive(Drop)]
pub struct FieldProps {
    /// The cell that has what was typed. Its owner makes it.
    pub cell: u64,
    pub label: Text,
    /// What is said while nothing is typed.
    pub refusal: Text,
}

impl FieldProps {
    /// Of the cell, with these words.
    pub fn new(alloc: Global, cell: u64, label: &str, refusal: &str) -> Made<FieldProps>
        ensures props { IfOk result (λ props.
            props ≡ meaning.field_props cell label.now refusal.now) }
    {
        Ok(FieldProps {
            cell,
            label: Text::from_str(alloc, label)?,
            refusal: Text::from_str(alloc, refusal)?,
        })
    }
}

impl Part for FieldProps {
    fn same(&self, other: &FieldProps) -> bool {
        self.cell == other.cell
            && self.label.same(&other.label)
            && self.refusal.same(&other.refusal)
    }

    fn copy(&self, alloc: Global) -> Made<FieldProps> {
        Ok(FieldProps {
            cell: self.cell,
            label: self.label.copy(alloc)?,
            refusal: self.refusal.copy(alloc)?,
        })
    }
}

/// What the listener of a field does: what is typed is written to the cell.
#[derive(Clone, Copy, PartialEq, Eq)]
pub struct Typed {
    pub cell: u64,
}

#[rattlefmt::skip]
impl Part for Typed {
    fn same(&self, other: &Typed) -> bool { *self == *other }
    fn copy(&self, _alloc: Global) -> Made<Typed> { Ok(*self) }
}
