//! What a component shows.

use crate::expression::Expression;
use rt_values::{List, Text};

/// A component with what it is handed.
#[derive(Debug, Drop)]
pub struct ComponentUse {
    pub component: u64,
    pub props: List<Expression>,
}

/// An attribute of an element.
#[derive(Debug, Drop)]
pub enum ViewAttribute {
    /// It stands in the template.
    Static {
        name: Text,
        value: Text,
    },
    /// A slot gives its value.
    Slot {
        name: Text,
        value: Expression,
    },
    /// A listener of that name stands in a slot.
    Listener {
        name: Text,
        action: u64,
        arguments: List<Expression>,
    },
}

/// A node of a view.
#[cycle(view)]
#[derive(Debug, Drop)]
pub enum ViewNode {
    Text(Text),
    Element {
        tag: Text,
        namespace: Option<Text>,
        /// Attributes in order of name, then listeners in order of name.
        attributes: List<ViewAttribute>,
        kids: List<ViewNode>,
    },
    Slot(ViewSlot),
}

/// What a view puts in a slot of its template. Lists of nodes in it are trees of their own.
#[cycle(view)]
#[derive(Debug, Drop)]
pub enum ViewSlot {
    TextOf(Expression),
    UseOf(ComponentUse),
    /// An item for each number below the count, which is a variable of the item.
    ListOf {
        count: Expression,
        item: List<ViewNode>,
    },
    PickOf {
        test: Expression,
        chosen: List<ViewNode>,
        other: List<ViewNode>,
    },
    FragmentOf(List<ViewNode>),
    ErrorBoundaryOf {
        kids: List<ViewNode>,
        handler: Option<ComponentUse>,
    },
    SuspenseBoundaryOf {
        kids: List<ViewNode>,
        fallback: Option<ComponentUse>,
    },
    Hole,
}
