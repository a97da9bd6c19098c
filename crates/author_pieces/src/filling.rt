//! What stands in the slots of a tree, whose constant part is kept.
ghost use Rattle.std.specs.Prelude.{◌≡◌, IfOk};
ghost use Rattle.author_pieces.specs.Filling as in_slots;
ghost use Rattle.author_pieces.specs.Had.{Had, HadBoth};
ghost use Rattle.author_pieces.specs.Markup as markup;

use crate::attrs::{heard, said};
use crate::kept::Kept;
use rt_values::{List, OutOfMemory, ScopeId, Shared, Text, both};
use std::alloc::Global;
use tree_nodes::{Attribute, DynamicNode, Parts, VComponent, VNode};

/// What stands in the slots of a tree, in document order.
#[derive(Drop)]
pub struct Slots<P: Parts> {
    pub nodes: List<DynamicNode<P>>,
    pub attrs: List<List<Attribute<P>>>,
}

/// What is to stand in the slots of a tree, in document order: each call adds what stands in the
/// next slot.
#[derive(Drop)]
pub struct Filling<P: Parts> {
    /// What stands in them so far, where there was memory for it.
    pub slots: Result<Slots<P>, OutOfMemory>,
}

impl<P: Parts> Filling<P> {
    /// Nothing yet.
    pub fn new(alloc: Global) -> Filling<P>
        ensures slots { IfOk result.slots (λ slots. slots ≡ in_slots.nothing) }
    {
        let slots = Slots {
            nodes: List::new(alloc),
            attrs: List::new(alloc),
        };
        Filling { slots: Ok(slots) }
    }

    /// What stands in the next node slot.
    pub fn holds(self, node: DynamicNode<P>) -> Filling<P>
        ensures slots { IfOk result.slots (λ new. Had self.slots (λ old.
            new ≡ in_slots.held old node)) }
    {
        Filling {
            slots: with_node(self.slots, node),
        }
    }

    /// The text in the next node slot.
    pub fn shows(self, words: Text) -> Filling<P>
        ensures slots { IfOk result.slots (λ new. Had self.slots (λ old.
            new ≡ in_slots.shown old words)) }
    {
        self.holds(DynamicNode::Text(words))
    }

    /// The component in the next node slot, with its props.
    pub fn leads(self, component: P::Component, props: P::Props) -> Filling<P>
        ensures slots { IfOk result.slots (λ new. Had self.slots (λ old.
            new ≡ in_slots.led old component props)) }
    {
        self.holds(DynamicNode::Component(VComponent::App { component, props }))
    }

    /// The text of the next attribute slot.
    pub fn says(self, alloc: Global, name: &str, words: Text) -> Filling<P>
        ensures slots { IfOk result.slots (λ new. Had self.slots (λ old.
            new ≡ in_slots.said old name.now words)) }
    {
        Filling {
            slots: with_attrs(self.slots, said(alloc, name, words)),
        }
    }

    /// The listener in the next attribute slot, whose handler is called in the scope.
    pub fn listens(
        self,
        alloc: Global,
        name: &str,
        origin: ScopeId,
        handler: P::Handler,
    ) -> Filling<P>
        ensures slots { IfOk result.slots (λ new. Had self.slots (λ old.
            new ≡ in_slots.heard old name.now origin.0 handler)) }
    {
        Filling {
            slots: with_attrs(self.slots, heard(alloc, name, origin, handler)),
        }
    }
}

/// One node slot more.
fn with_node<P: Parts>(
    slots: Result<Slots<P>, OutOfMemory>,
    node: DynamicNode<P>,
) -> Result<Slots<P>, OutOfMemory>
    ensures slots { IfOk result (λ new. Had slots (λ old. new ≡ in_slots.held old node)) }
{
    let Slots { mut nodes, attrs } = slots?;
    nodes.push(node)?;
    Ok(Slots { nodes, attrs })
}

/// One attribute slot more.
fn with_attrs<P: Parts>(
    slots: Result<Slots<P>, OutOfMemory>,
    slot: Result<List<Attribute<P>>, OutOfMemory>,
) -> Result<Slots<P>, OutOfMemory>
    ensures slots { IfOk result (λ new. HadBoth slots slot (λ old slot.
        new ≡ in_slots.given old slot)) }
{
    let (slots, slot) = both(slots, slot)?;
    let Slots { nodes, mut attrs } = slots;
    attrs.push(slot)?;
    Ok(Slots { nodes, attrs })
}

/// The tree of a kept constant part, with what stands in its slots: that of each piece of those
/// shapes in whose slots this stands.
pub fn fill<P: Parts>(
    alloc: Global,
    kept: &Kept,
    filling: Filling<P>,
) -> Result<VNode<P>, OutOfMemory>
    ensures tree { IfOk result (λ tree. Had filling.slots (λ slots.
        tree ≡ markup.view (in_slots.filled kept.now slots))) }
{
    let Slots { nodes, attrs } = filling.slots?;
    let slots = both(
        Shared::from_list(alloc, nodes),
        Shared::from_list(alloc, attrs),
    );
    let (template, (dynamic_nodes, dynamic_attrs)) = both(kept.template(alloc), slots)?;
    Ok(VNode {
        template,
        dynamic_nodes,
        dynamic_attrs,
    })
}
