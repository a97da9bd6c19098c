//! Attributes of a slot: texts and listeners.

ghost use Rattle.std.specs.Prelude.{◌≡◌, ◌↔◌, IsTrue, IfOk};

use crate::Parts;
use rt_values::{OutOfMemory, Part, ScopeId, Text, both};
use std::alloc::Global;

/// An attribute in a slot.
#[derive(Drop)]
pub struct Attribute<P: Parts> {
    pub name: Text,
    pub namespace: Option<Text>,
    pub value: AttributeValue<P>,
}

/// The value of an attribute in a slot.
#[derive(Drop)]
pub enum AttributeValue<P: Parts> {
    Text(Text),
    /// The attribute counts as absent.
    None,
    Listener(ListenerCallback<P>),
}

/// A listener of an element.
#[derive(Drop)]
pub struct ListenerCallback<P: Parts> {
    /// The scope in which it runs.
    pub origin: ScopeId,
    pub handler: P::Handler,
}

impl<P: Parts> ListenerCallback<P> {
    /// Whether origin and handler are equal.
    pub fn same(&self, other: &ListenerCallback<P>) -> bool
        ensures { IsTrue result ↔ (self.now ≡ other.now) }
    {
        self.origin == other.origin && self.handler.same(&other.handler)
    }

    /// An equal one.
    pub fn copy(&self, alloc: Global) -> Result<ListenerCallback<P>, OutOfMemory>
        ensures { IfOk result (λ copied. copied ≡ self.now) }
    {
        Ok(ListenerCallback {
            origin: self.origin,
            handler: self.handler.copy(alloc)?,
        })
    }
}

impl<P: Parts> Part for AttributeValue<P> {
    fn same(&self, other: &AttributeValue<P>) -> bool {
        match (self, other) {
            (AttributeValue::Text(left), AttributeValue::Text(right)) => left.same(right),
            (AttributeValue::None, AttributeValue::None) => true,
            (AttributeValue::Listener(left), AttributeValue::Listener(right)) => left.same(right),
            _ => false,
        }
    }

    fn copy(&self, alloc: Global) -> Result<AttributeValue<P>, OutOfMemory> {
        match self {
            AttributeValue::Text(text) => Ok(AttributeValue::Text(text.copy(alloc)?)),
            AttributeValue::None => Ok(AttributeValue::None),
            AttributeValue::Listener(listener) => {
                Ok(AttributeValue::Listener(listener.copy(alloc)?))
            }
        }
    }
}

impl<P: Parts> Part for Attribute<P> {
    fn same(&self, other: &Attribute<P>) -> bool {
        self.name.same(&other.name)
            && self.namespace.same(&other.namespace)
            && self.value.same(&other.value)
    }

    fn copy(&self, alloc: Global) -> Result<Attribute<P>, OutOfMemory> {
        let names = both(self.name.copy(alloc), self.namespace.copy(alloc));
        let ((name, namespace), value) = both(names, self.value.copy(alloc))?;
        Ok(Attribute {
            name,
            namespace,
            value,
        })
    }
}
