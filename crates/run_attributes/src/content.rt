//! The attributes and the listeners of an element: those of its template, and those that its
//! attribute slots give.

ghost use Rattle.std.specs.Prelude.{◌≡◌, [], map, IfOk, OnOk};
ghost use Rattle.std.specs.List.{slice_index_or};
ghost use Rattle.rt_model.specs.Document.{with_attribute};
ghost use Rattle.run_attributes.specs.Content.{attributes_of, with_all_given, with_all_listeners, with_entries, with_entry, with_given, with_listener_given, with_listeners_given, with_listeners_of};

use crate::order::{Attributes, Listeners};
use rt_edits::DocAttr;
use rt_values::{List, OutOfMemory, Part, Text, both};
use std::alloc::Global;
use tree_nodes::{Attribute, AttributeValue, Parts, TemplateAttribute};

/// What the attribute slot with a number gives, nothing where there is no such slot.
pub fn attributes_in<P: Parts>(given: &[List<Attribute<P>>], slot: u64) -> &[Attribute<P>]
    ensures { result.now ≡ slice_index_or given.now slot [] }
{
    match given.get(slot as usize) {
        Some(attributes) => attributes.as_slice(),
        None => &[],
    }
}

/// The attributes of an element with these entries in its template, in the document's order.
pub fn element_attributes<P: Parts>(
    alloc: Global,
    given: &[List<Attribute<P>>],
    entries: &[TemplateAttribute],
) -> Result<List<DocAttr>, OutOfMemory>
    ensures { IfOk result (λ all. attributes_of all ≡ with_entries given.now [] entries.now) }
{
    let mut all = Attributes::new(alloc);
    for entry in entries {
        add_entry(alloc, given, entry, &mut all)?;
    }
    Ok(all.into_list())
}

#[tactic(auto, using(crate::proofs::Contents::contents))]
fn add_entry<P: Parts>(
    alloc: Global,
    given: &[List<Attribute<P>>],
    entry: &TemplateAttribute,
    all: &mut Attributes,
) -> Result<(), OutOfMemory>
    ensures { OnOk result (attributes_of all.new
        ≡ with_entry given.now (attributes_of all.old) entry.now) }
{
    match entry {
        TemplateAttribute::Static {
            name,
            namespace,
            value,
        } => add_attribute(alloc, name, namespace, value, all),
        TemplateAttribute::Dynamic { id } => {
            add_all_given(alloc, attributes_in(given, *id), all)
        }
    }
}

fn add_all_given<P: Parts>(
    alloc: Global,
    given: &[Attribute<P>],
    all: &mut Attributes,
) -> Result<(), OutOfMemory>
    ensures { OnOk result (attributes_of all.new
        ≡ with_all_given (attributes_of all.old) given.now) }
{
    for attribute in given {
        add_given(alloc, attribute, all)?;
    }
    Ok(())
}

// An attribute with the value none is absent.
#[tactic(auto, using(crate::proofs::Contents::contents))]
fn add_given<P: Parts>(
    alloc: Global,
    attribute: &Attribute<P>,
    all: &mut Attributes,
) -> Result<(), OutOfMemory>
    ensures { OnOk result (attributes_of all.new
        ≡ with_given (attributes_of all.old) attribute.now) }
{
    match &attribute.value {
        AttributeValue::Text(text) => {
            add_attribute(alloc, &attribute.name, &attribute.namespace, text, all)
        }
        AttributeValue::None => Ok(()),
        AttributeValue::Listener(_) => Ok(()),
    }
}

// One more attribute, of these parts.
fn add_attribute(
    alloc: Global,
    name: &Text,
    namespace: &Option<Text>,
    value: &Text,
    all: &mut Attributes,
) -> Result<(), OutOfMemory>
    ensures { OnOk result (attributes_of all.new ≡ with_attribute (attributes_of all.old)
        (record { name = name.now; namespace = namespace.now; value = value.now })) }
{
    let names = both(name.copy(alloc), namespace.copy(alloc));
    let ((name, namespace), value) = both(names, value.copy(alloc))?;
    all.put(DocAttr {
        name,
        namespace,
        value,
    })
}

/// The names of the events that an element with these entries in its template listens to, in the
/// document's order.
pub fn element_listeners<P: Parts>(
    alloc: Global,
    given: &[List<Attribute<P>>],
    entries: &[TemplateAttribute],
) -> Result<List<Text>, OutOfMemory>
    ensures { IfOk result (λ all. all ≡ with_all_listeners given.now [] entries.now) }
{
    let mut all = Listeners::new(alloc);
    for entry in entries {
        add_listeners(alloc, given, entry, &mut all)?;
    }
    Ok(all.into_list())
}

#[tactic(auto, using(crate::proofs::Contents::contents))]
fn add_listeners<P: Parts>(
    alloc: Global,
    given: &[List<Attribute<P>>],
    entry: &TemplateAttribute,
    all: &mut Listeners,
) -> Result<(), OutOfMemory>
    ensures { OnOk result (all.new ≡ with_listeners_of given.now all.old entry.now) }
{
    match entry {
        TemplateAttribute::Static {
            name: _,
            namespace: _,
            value: _,
        } => Ok(()),
        TemplateAttribute::Dynamic { id } => {
            add_listeners_given(alloc, attributes_in(given, *id), all)
        }
    }
}

fn add_listeners_given<P: Parts>(
    alloc: Global,
    given: &[Attribute<P>],
    all: &mut Listeners,
) -> Result<(), OutOfMemory>
    ensures { OnOk result (all.new ≡ with_listeners_given all.old given.now) }
{
    for attribute in given {
        add_listener_given(alloc, attribute, all)?;
    }
    Ok(())
}

#[tactic(auto, using(crate::proofs::Contents::contents))]
fn add_listener_given<P: Parts>(
    alloc: Global,
    attribute: &Attribute<P>,
    all: &mut Listeners,
) -> Result<(), OutOfMemory>
    ensures { OnOk result (all.new ≡ with_listener_given all.old attribute.now) }
{
    match &attribute.value {
        AttributeValue::Listener(_) => all.put(attribute.name.copy(alloc)?),
        AttributeValue::Text(_) => Ok(()),
        AttributeValue::None => Ok(()),
    }
}
