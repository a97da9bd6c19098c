//! The attributes and the listeners of an element, kept in order.
ghost use Rattle.std.specs.Prelude.{◌≡◌, OnOk, OnErr};
ghost use Rattle.rt_edits.specs.Ordered.{text_order, namespace_order, attribute_order, place_of, place_for, put_in, taken_out};

use crate::doc_node::DocAttr;
use rt_values::{OutOfMemory, Text};
use std::cmp::Ordering;

/// How a text stands to another, by bytes.
pub fn order_of_texts(text: &Text, other: &Text) -> Ordering
    ensures order { result ≡ text_order text.now other.now }
{
    text.as_str().cmp(&other.as_str())
}

/// How a namespace stands to another: none comes first.
fn order_of_namespaces(namespace: &Option<Text>, other: &Option<Text>) -> Ordering
    ensures order { result ≡ namespace_order namespace.now other.now }
{
    match namespace {
        None => match other {
            None => Ordering::Equal,
            Some(_) => Ordering::Less,
        },
        Some(namespace) => match other {
            None => Ordering::Greater,
            Some(other) => order_of_texts(namespace, other),
        },
    }
}

/// How a name and a namespace stand to those of an attribute.
fn order_of_attribute(name: &Text, namespace: &Option<Text>, attr: &DocAttr) -> Ordering
    ensures order { result ≡ attribute_order name.now namespace.now attr.now }
{
    order_of_namespaces(namespace, &attr.namespace).then(order_of_texts(name, &attr.name))
}

/// The index of the attribute of this name and namespace.
fn place_of_attribute(attrs: &[DocAttr], name: &Text, namespace: &Option<Text>) -> Option<usize>
    ensures place { result ≡ place_of (attribute_order name.now namespace.now) attrs.now }
{
    attrs
        .iter()
        .position(|attr| order_of_attribute(name, namespace, attr).is_eq())
}

/// The index of the first attribute that this one equals or comes before, or else their number.
fn place_for_attribute(attrs: &[DocAttr], attr: &DocAttr) -> usize
    ensures place { result ≡ place_for (attribute_order attr.now.name attr.now.namespace) attrs.now }
{
    for at in 0..attrs.len() {
        if order_of_attribute(&attr.name, &attr.namespace, &attrs[at]).is_le() {
            return at;
        }
    }
    attrs.len()
}

/// The index of the listener of this name.
pub fn place_of_listener(listeners: &[Text], name: &Text) -> Option<usize>
    ensures place { result ≡ place_of (text_order name.now) listeners.now }
{
    listeners
        .iter()
        .position(|other| order_of_texts(name, other).is_eq())
}

/// The index of the first listener that this name equals or comes before, or else their number.
fn place_for_listener(listeners: &[Text], name: &Text) -> usize
    ensures place { result ≡ place_for (text_order name.now) listeners.now }
{
    for at in 0..listeners.len() {
        if order_of_texts(name, &listeners[at]).is_le() {
            return at;
        }
    }
    listeners.len()
}

/// Puts an attribute in its place, over the one of its name and namespace.
pub fn put_attribute(attrs: &mut Vec<DocAttr>, attr: DocAttr) -> Result<(), OutOfMemory>
    ensures ok { OnOk result (attrs.new.items ≡
        put_in (attribute_order attr.name attr.namespace) attr attrs.old.items) }
    ensures err { OnErr result (attrs.new.items ≡ attrs.old.items) }
{
    let at = place_for_attribute(attrs.as_slice(), &attr);
    if at < attrs.len() && order_of_attribute(&attr.name, &attr.namespace, &attrs[at]).is_eq() {
        attrs[at] = attr;
        return Ok(());
    }
    attrs.insert(at, attr)?;
    Ok(())
}

/// Takes the attribute of this name and namespace away, if there is one.
pub fn take_attribute(attrs: &mut Vec<DocAttr>, name: &Text, namespace: &Option<Text>)
    ensures taken { attrs.new.items ≡
        taken_out (attribute_order name.now namespace.now) attrs.old.items }
{
    if let Some(at) = place_of_attribute(attrs, name, namespace) {
        attrs.remove(at);
    }
}

/// Puts a listener in its place.
pub fn put_listener(listeners: &mut Vec<Text>, name: Text) -> Result<(), OutOfMemory>
    ensures ok { OnOk result (listeners.new.items ≡
        put_in (text_order name) name listeners.old.items) }
    ensures err { OnErr result (listeners.new.items ≡ listeners.old.items) }
{
    let at = place_for_listener(listeners.as_slice(), &name);
    if at < listeners.len() && order_of_texts(&name, &listeners[at]).is_eq() {
        listeners[at] = name;
        return Ok(());
    }
    listeners.insert(at, name)?;
    Ok(())
}

/// Takes the listener of this name away, if there is one.
pub fn take_listener(listeners: &mut Vec<Text>, name: &Text)
    ensures taken { listeners.new.items ≡ taken_out (text_order name.now) listeners.old.items }
{
    if let Some(at) = place_of_listener(listeners, name) {
        listeners.remove(at);
    }
}
