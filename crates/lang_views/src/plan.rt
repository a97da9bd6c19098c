//! A source made ready to run: each list of view nodes with its template, and what fills its slots.

use lang_syntax::{ComponentUse, Expression, Statement};
use rt_values::{Boxed, List, Text};
use tree_nodes::Template;

/// A component made ready.
#[derive(Drop)]
pub struct ComponentPlan {
    pub statements: List<Statement>,
    pub view: Plan,
}

/// A list of view nodes made ready.
#[cycle(plan)]
#[derive(Drop)]
pub struct Plan {
    /// The template with its paths, which each tree copies. A view of no node has none, and shows a
    /// placeholder.
    pub template: Option<Template>,
    /// What fills the slots, in document order.
    pub fills: List<Fill>,
}

/// What fills one slot of a template.
#[cycle(plan)]
#[derive(Drop)]
pub enum Fill {
    /// An attribute slot with one attribute.
    Attribute {
        name: Text,
        value: Expression,
    },
    /// An attribute slot with one listener.
    Listener {
        name: Text,
        action: u64,
        arguments: List<Expression>,
    },
    /// A node slot.
    Node(SlotPlan),
}

/// What fills a node slot.
#[cycle(plan)]
#[derive(Drop)]
pub enum SlotPlan {
    TextOf(Expression),
    UseOf(ComponentUse),
    /// An item for each number below the count, which is a variable of the item.
    ListOf {
        count: Expression,
        item: Boxed<Plan>,
    },
    PickOf {
        test: Expression,
        chosen: Boxed<Plan>,
        other: Boxed<Plan>,
    },
    FragmentOf(Boxed<Plan>),
    ErrorBoundaryOf {
        kids: Boxed<Plan>,
        handler: Option<ComponentUse>,
    },
    SuspenseBoundaryOf {
        kids: Boxed<Plan>,
        fallback: Option<ComponentUse>,
    },
    Hole,
}
