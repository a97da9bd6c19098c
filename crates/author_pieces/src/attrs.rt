//! The attributes of an element.
ghost use Rattle.std.specs.Prelude.{◌≡◌, IfOk};
ghost use Rattle.author_pieces.specs.Had.{HadBoth};
ghost use Rattle.author_pieces.specs.Markup as markup;

use crate::shapes::{ShapeAttribute, together};
use rt_values::{List, OutOfMemory, ScopeId, Text, both};
use std::alloc::Global;
use tree_nodes::{Attribute, AttributeValue, ListenerCallback, Parts};

/// Attributes: their shapes, and what stands in the slots among them, in order.
#[derive(Drop)]
pub struct Attrs<P: Parts> {
    pub shapes: List<ShapeAttribute>,
    pub slots: List<List<Attribute<P>>>,
}

/// No attribute yet.
fn none_yet<P: Parts>(alloc: Global) -> Attrs<P>
    ensures attrs { result ≡ markup.empty_attrs }
{
    Attrs {
        shapes: List::new(alloc),
        slots: List::new(alloc),
    }
}

/// No attribute.
pub fn empty_attrs<P: Parts>(alloc: Global) -> Result<Attrs<P>, OutOfMemory>
    ensures attrs { IfOk result (λ attrs. attrs ≡ markup.empty_attrs) }
{
    Ok(none_yet(alloc))
}

/// An attribute that stays.
pub fn fixed<P: Parts>(alloc: Global, name: &str, value: &str) -> Result<Attrs<P>, OutOfMemory>
    ensures attrs { IfOk result (λ attrs. attrs ≡ markup.fixed name.now value.now) }
{
    let mut attrs = none_yet(alloc);
    let name = Text::from_str(alloc, name)?;
    let value = Text::from_str(alloc, value)?;
    attrs.shapes.push(ShapeAttribute::Fixed { name, value })?;
    Ok(attrs)
}

/// A slot, of a constant part that is kept: what stands in it comes when it is filled.
pub fn open_attr<P: Parts>(alloc: Global) -> Result<Attrs<P>, OutOfMemory>
    ensures attrs { IfOk result (λ attrs. attrs ≡ markup.open_attr) }
{
    let mut attrs = none_yet(alloc);
    attrs.shapes.push(ShapeAttribute::Open)?;
    Ok(attrs)
}

/// A slot, and what stands in it.
fn opened<P: Parts>(alloc: Global, slot: List<Attribute<P>>) -> Result<Attrs<P>, OutOfMemory>
    ensures attrs { IfOk result (λ attrs. attrs ≡ markup.opened slot) }
{
    let mut attrs = none_yet(alloc);
    attrs.shapes.push(ShapeAttribute::Open)?;
    attrs.slots.push(slot)?;
    Ok(attrs)
}

/// One attribute without a namespace.
fn alone<P: Parts>(
    alloc: Global,
    name: &str,
    value: AttributeValue<P>,
) -> Result<List<Attribute<P>>, OutOfMemory>
    ensures slot { IfOk result (λ slot. slot ≡ markup.alone name.now value) }
{
    let name = Text::from_str(alloc, name)?;
    let mut slot = List::new(alloc);
    slot.push(Attribute {
        name,
        namespace: None,
        value,
    })?;
    Ok(slot)
}

/// A text, as it stands in a slot.
pub(crate) fn said<P: Parts>(
    alloc: Global,
    name: &str,
    words: Text,
) -> Result<List<Attribute<P>>, OutOfMemory>
    ensures slot { IfOk result (λ slot. slot ≡ markup.said name.now words) }
{
    alone(alloc, name, AttributeValue::Text(words))
}

/// A listener, as it stands in a slot.
pub(crate) fn heard<P: Parts>(
    alloc: Global,
    name: &str,
    origin: ScopeId,
    handler: P::Handler,
) -> Result<List<Attribute<P>>, OutOfMemory>
    ensures slot { IfOk result (λ slot. slot ≡ markup.heard name.now origin.0 handler) }
{
    let value = AttributeValue::Listener(ListenerCallback { origin, handler });
    alone(alloc, name, value)
}

/// An attribute whose text may change.
pub fn says<P: Parts>(alloc: Global, name: &str, words: Text) -> Result<Attrs<P>, OutOfMemory>
    ensures attrs { IfOk result (λ attrs. attrs ≡ markup.says name.now words) }
{
    let slot = said(alloc, name, words)?;
    opened(alloc, slot)
}

/// An attribute that listens to events: its name is `on` and the event's name. The handler is called in
/// the scope.
pub fn listens<P: Parts>(
    alloc: Global,
    name: &str,
    origin: ScopeId,
    handler: P::Handler,
) -> Result<Attrs<P>, OutOfMemory>
    ensures attrs { IfOk result (λ attrs. attrs ≡ markup.listens name.now origin.0 handler) }
{
    let slot = heard(alloc, name, origin, handler)?;
    opened(alloc, slot)
}

/// Attributes, and after them others.
fn joined<P: Parts>(first: Attrs<P>, second: Attrs<P>) -> Result<Attrs<P>, OutOfMemory>
    ensures attrs { IfOk result (λ attrs. attrs ≡ markup.and first second) }
{
    let shapes = together(first.shapes, second.shapes);
    let slots = together(first.slots, second.slots);
    let (shapes, slots) = both(shapes, slots)?;
    Ok(Attrs { shapes, slots })
}

/// Attributes, and after them others, as the words answer them.
pub fn and<P: Parts>(
    first: Result<Attrs<P>, OutOfMemory>,
    second: Result<Attrs<P>, OutOfMemory>,
) -> Result<Attrs<P>, OutOfMemory>
    ensures attrs { IfOk result (λ attrs. HadBoth first second (λ a b.
        attrs ≡ markup.and a b)) }
{
    let (first, second) = both(first, second)?;
    Ok(joined(first, second)?)
}
