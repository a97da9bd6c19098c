//! The names of an element's attributes, static ones and those in slots, must differ.

ghost use Rattle.std.specs.Prelude.{◌≡◌, [], map};
ghost use Rattle.std.specs.List.{list_any, slice_index_or};
ghost use Rattle.tree_nodes.specs.Names.{same_name, same_namespace, distinct, fresh, name_of, names_in, names_of, slot_names};

use crate::rising::last_name;
use rt_values::{List, Text};
use tree_nodes::{Attribute, Parts, TemplateAttribute};

/// Whether no two attributes of one element have the same name and namespace. Names that ascend are
/// told apart by one look at each of them, all others by a look at each two.
pub fn names_differ<P: Parts>(attrs: &[TemplateAttribute], slots: &[List<Attribute<P>>]) -> bool
    ensures { result ≡ distinct (names_in (slot_names slots.now) attrs.now) }
{
    if last_name(attrs, slots).is_some() {
        return true;
    }
    all_differ(attrs, slots)
}

// The same by a look at each two of them.
#[tactic(auto, using(crate::proofs::NamesLemmas::name_lists))]
fn all_differ<P: Parts>(attrs: &[TemplateAttribute], slots: &[List<Attribute<P>>]) -> bool
    ensures { result ≡ distinct (names_in (slot_names slots.now) attrs.now) }
{
    for at in 0..attrs.len() {
        if !is_fresh(&attrs[at], &attrs[at + 1..], slots) {
            return false;
        }
    }
    true
}

// Whether the names of an attribute differ from each other and from those of the attributes after
// it.
fn is_fresh<P: Parts>(
    attr: &TemplateAttribute,
    later: &[TemplateAttribute],
    slots: &[List<Attribute<P>>],
) -> bool
    ensures { result ≡ fresh (names_of (slot_names slots.now) attr.now)
        (names_in (slot_names slots.now) later.now) }
{
    match attr {
        TemplateAttribute::Static {
            name,
            namespace,
            ..
        } => !is_named(name, namespace, later, slots),
        TemplateAttribute::Dynamic { id } => slot_is_fresh(in_slot(slots, *id), later, slots),
    }
}

#[tactic(auto, using(crate::proofs::NamesLemmas::name_lists))]
// Whether the names in one slot differ from each other and from those of the attributes after it.
fn slot_is_fresh<P: Parts>(
    slot: &[Attribute<P>],
    later: &[TemplateAttribute],
    slots: &[List<Attribute<P>>],
) -> bool
    ensures { result ≡ fresh (map name_of slot.now) (names_in (slot_names slots.now) later.now) }
{
    for at in 0..slot.len() {
        let name = &slot[at].name;
        let namespace = &slot[at].namespace;
        if is_named_in(name, namespace, &slot[at + 1..])
            || is_named(name, namespace, later, slots)
        {
            return false;
        }
    }
    true
}

#[tactic(auto, using(crate::proofs::NamesLemmas::name_lists))]
// Whether one of the attributes has this name and namespace.
fn is_named<P: Parts>(
    name: &Text,
    namespace: &Option<Text>,
    attrs: &[TemplateAttribute],
    slots: &[List<Attribute<P>>],
) -> bool
    ensures { result ≡ list_any (same_name (name.now, namespace.now))
        (names_in (slot_names slots.now) attrs.now) }
{
    for attr in attrs {
        if names(attr, slots, name, namespace) {
            return true;
        }
    }
    false
}

// Whether an attribute of a template, or one in its slot, has this name and namespace.
fn names<P: Parts>(
    attr: &TemplateAttribute,
    slots: &[List<Attribute<P>>],
    name: &Text,
    namespace: &Option<Text>,
) -> bool
    ensures { result ≡ list_any (same_name (name.now, namespace.now))
        (names_of (slot_names slots.now) attr.now) }
{
    match attr {
        TemplateAttribute::Static {
            name: own,
            namespace: within,
            ..
        } => are_same(name, namespace, own, within),
        TemplateAttribute::Dynamic { id } => is_named_in(name, namespace, in_slot(slots, *id)),
    }
}

// Whether one of the attributes in a slot has this name and namespace.
fn is_named_in<P: Parts>(name: &Text, namespace: &Option<Text>, slot: &[Attribute<P>]) -> bool
    ensures { result ≡ list_any (same_name (name.now, namespace.now)) (map name_of slot.now) }
{
    for attribute in slot {
        if are_same(name, namespace, &attribute.name, &attribute.namespace) {
            return true;
        }
    }
    false
}

// Whether name and namespace are the same.
fn are_same(name: &Text, namespace: &Option<Text>, other: &Text, within: &Option<Text>) -> bool
    ensures { result ≡ same_name (name.now, namespace.now) (other.now, within.now) }
{
    name.as_str() == other.as_str() && are_same_namespaces(namespace, within)
}

fn are_same_namespaces(left: &Option<Text>, right: &Option<Text>) -> bool
    ensures { result ≡ same_namespace left.now right.now }
{
    match (left, right) {
        (None, None) => true,
        (Some(left), Some(right)) => left.as_str() == right.as_str(),
        _ => false,
    }
}

/// The attributes in the slot with this number, none where there is no such slot.
pub fn in_slot<P: Parts>(slots: &[List<Attribute<P>>], id: u64) -> &[Attribute<P>]
    ensures { result.now ≡ slice_index_or slots.now id [] }
{
    match slots.get(id as usize) {
        Some(slot) => slot.as_slice(),
        None => &[],
    }
}
