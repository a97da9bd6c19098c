//! The whole of a source.

use crate::expression::Literal;
use crate::outside::OutsideStatements;
use crate::statement::Statement;
use crate::view::ViewNode;
use rt_values::{List, Text};

/// A component: what its body does, and what it shows.
#[derive(Debug, Drop)]
pub struct ComponentSource {
    pub statements: List<Statement>,
    pub view: List<ViewNode>,
}

/// What a message asks for.
#[derive(Clone, Copy, Debug, PartialEq, Eq)]
pub enum PostSource {
    Mark(u64),
    Wake(u64),
    All,
}

/// What comes from outside.
#[derive(Debug, Drop)]
pub enum InputSource {
    Event {
        name: Text,
        element: u64,
        payload: Option<Literal>,
        bubbles: Option<i64>,
    },
    Wake(u64),
    Write {
        cell: u64,
        value: Literal,
    },
    Mark(u64),
    Drain(List<PostSource>),
}

/// A whole source: components, actions and tasks in the order of their names.
#[derive(Debug, Drop)]
pub struct Source {
    pub components: List<ComponentSource>,
    /// The place of the root component.
    pub root: u64,
    /// Of the root.
    pub props: List<Literal>,
    pub actions: List<OutsideStatements>,
    /// Each by its steps.
    pub tasks: List<List<OutsideStatements>>,
    pub inputs: List<InputSource>,
    /// By poster.
    pub posts: List<List<PostSource>>,
}
