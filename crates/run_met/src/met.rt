//! What is met.

use rt_values::{List, Text};
use run_places::{Kind, Place};
use tree_nodes::{DynamicNode, Parts, VComponent, VNode};

/// One thing that a walk over an old tree and a new one meets.
#[derive(Drop)]
pub enum Met<P: Parts> {
    /// A node of both trees.
    Stays {
        place: Place,
        kind: Kind,
    },
    /// A node of the old tree alone.
    Goes {
        place: Place,
        kind: Kind,
    },
    /// A node of the new tree alone.
    Comes {
        place: Place,
        kind: Kind,
    },
    /// A component of both trees, whose child is fed.
    Fed {
        place: Place,
        was: VComponent<P>,
        next: VComponent<P>,
    },
    /// A component of the old tree alone, whose child is left.
    Left {
        place: Place,
        was: VComponent<P>,
    },
    /// A component of the new tree alone, whose child is made.
    Made {
        place: Place,
        next: VComponent<P>,
    },
    /// A template stays, with what its attribute slots give and gave.
    Given {
        above: Place,
        next: VNode<P>,
        was: VNode<P>,
    },
    /// A text stays, or another one comes in its place.
    Worded {
        place: Place,
        next: Text,
        was: Text,
    },
    /// A slot's old nodes are to go.
    SlotGoes {
        place: Place,
        was: DynamicNode<P>,
    },
    /// A tree's old nodes are to go.
    TreeGoes {
        above: Place,
        was: VNode<P>,
    },
    /// A slot's old nodes give way.
    SlotWay {
        place: Place,
        next: DynamicNode<P>,
        was: DynamicNode<P>,
    },
    /// A tree's old nodes give way.
    TreeWay {
        above: Place,
        next: VNode<P>,
        was: VNode<P>,
    },
    /// Items from a position on came behind those in front of them.
    ComeIn {
        place: Place,
        trees: List<VNode<P>>,
        first: u64,
    },
    /// Items from a position on go.
    GoOut {
        place: Place,
        trees: List<VNode<P>>,
        first: u64,
    },
    /// A slot that the old tree doesn't have.
    Lone {
        place: Place,
        next: DynamicNode<P>,
    },
}
