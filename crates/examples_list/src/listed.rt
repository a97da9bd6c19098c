//! The application: pages over the library's field.
ghost use Rattle.std.specs.Prelude.{◌≡◌, IfOk};
ghost use Rattle.std.specs.Option.{option_copied};
ghost use Rattle.examples_list.specs.Meaning as meaning;

use crate::faces::{Tree, present};
use crate::parts::{Change, Component, Value, items_in};
use crate::writing::{Writes, added, removed};
use examples_library::{
    FieldProps, Library, Line, Made, Typed, field_reads, field_shows, typed_writes,
};
use rt_author::{
    Carries, Event, KeepsCells, List, NoData, Paged, Pages, Part, Parts, ScopeId, Text, one, two,
};
use std::alloc::Global;

/// The application, with what stays of its lines.
#[derive(Drop)]
pub struct Shopping {
    line: Line,
}

impl Shopping {
    /// Makes it.
    pub fn new(alloc: Global) -> Made<Shopping> {
        let line = Line::new::<Listed>(alloc)?;
        Ok(Shopping { line })
    }
}

/// The application, as the runtime takes it.
pub type Listed = Paged<Shopping>;

/// The cells that are read.
type Read = Made<List<u64>>;

/// The first values of cells.
type Values = Made<List<Value>>;

impl Parts for Shopping {
    type Component = Component;

    /// What a field is given; the whole is given nothing.
    type Props = FieldProps;

    type Value = Value;

    type Handler = Change;

    type TaskState = NoData;

    type Effect = NoData;

    /// What is typed.
    type Payload = Text;
}

#[rattlefmt::skip]
impl KeepsCells for Shopping {
    ghost keeping = { meaning.keeping };

    fn cell_kind() -> u32 { 0 }
    fn keep_cell(_alloc: Global, cell: u64) -> Made<Value> { Ok(Value::Cell(cell)) }
    fn cell_in(value: &Value) -> Option<u64> {
        match value { Value::Cell(cell) => Some(*cell), _ => None }
    }
}

#[rattlefmt::skip]
impl Carries<Library> for Shopping {
    ghost carrying = { meaning.carrying };

    fn component_of(_component: NoData) -> Component { Component::Field }
    fn props_of(props: FieldProps) -> FieldProps { props }
    fn handler_of(typed: Typed) -> Change { Change::Field(typed) }
    fn value_of(text: Text) -> Value { Value::Words(text) }
    fn held_in(value: Value) -> Option<Text> {
        match value { Value::Words(words) => Some(words), _ => None }
    }
    fn payload_in(alloc: Global, text: &Text) -> Made<Option<Text>> { Ok(Some(text.copy(alloc)?)) }
}

/// What the whole is given.
pub fn no_props(alloc: Global) -> Made<FieldProps>
    ensures props { IfOk result (λ props. props ≡ meaning.no_props) }
{
    FieldProps::new(alloc, 0, "", "")
}

/// The cell, where there is one.
fn only(alloc: Global, cell: Option<&u64>) -> Read
    ensures cells { IfOk result (λ cells. cells ≡ meaning.only (option_copied cell.entry)) }
{
    match cell {
        Some(cell) => one(alloc, *cell),
        None => Ok(List::new(alloc)),
    }
}

#[rattlefmt::skip]
impl Pages for Shopping {
    ghost answers = { λ _. meaning.answers };

    ghost props_of_none = { λ _. meaning.no_props };

    ghost decide = { λ _. meaning.decides };

    fn root(&self, _alloc: Global) -> Made<Component> { Ok(Component::Whole) }
    fn empty_props(&self, alloc: Global) -> Made<FieldProps> { no_props(alloc) }

    fn cells(&self, alloc: Global, component: &Component, _props: &FieldProps) -> Values {
        match component {
            Component::Whole => {
                let words = Value::Words(Text::from_str(alloc, "")?);
                two(alloc, words, Value::Items(List::new(alloc)))
            }
            Component::Field => Ok(List::new(alloc)),
        }
    }

    fn reads(&self, alloc: Global, component: &Component, props: &FieldProps, own: &[u64]) -> Read {
        match component {
            Component::Whole => only(alloc, own.get(1)),
            Component::Field => field_reads(alloc, props),
        }
    }

    fn shows(
        &self,
        alloc: Global,
        component: &Component,
        props: &FieldProps,
        scope: ScopeId,
        own: &[u64],
        values: &[Option<Value>],
    ) -> Tree {
        match component {
            Component::Whole => present(alloc, &self.line, scope, own, values),
            Component::Field => field_shows::<Listed>(alloc, scope, props, values.get(0)),
        }
    }

    fn hears(&self, alloc: Global, handler: &Change, _event: &Event<Text>) -> Read {
        match handler {
            Change::Add { draft, items } => two(alloc, *draft, *items),
            Change::Remove { items, .. } => one(alloc, *items),
            Change::Field(_) => Ok(List::new(alloc)),
        }
    }

    fn writes(
        &self,
        alloc: Global,
        handler: &Change,
        event: &mut Event<Text>,
        values: &[Option<Value>],
    ) -> Writes {
        match handler {
            Change::Add { draft, items } => added(alloc, *draft, *items, values),
            Change::Remove { items, at } => {
                removed(alloc, *items, *at, items_in(alloc, values.get(0))?)
            }
            Change::Field(typed) => typed_writes::<Shopping>(alloc, typed, &event.payload),
        }
    }
}
