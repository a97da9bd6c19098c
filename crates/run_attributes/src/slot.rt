//! What one attribute slot writes.

ghost use Rattle.std.specs.Prelude.{◌≡◌, ◌++◌, ◌∷◌, [], Some, None, OnOk};
ghost use Rattle.rt_model.specs.Document as doc;
ghost use Rattle.run_attributes.specs.Given.{all_come, all_left, come_of, edits_of, gives_text, has_key_of, is_listening, left_of, listener_among, text_among, text_found, text_here, text_of};

use crate::order::{is_same_namespace, is_same_text};
use rt_edits::Edit;
use rt_values::{ElementId, List, OutOfMemory, Part, Text, both};
use std::alloc::Global;
use tree_nodes::{Attribute, AttributeValue, Parts};

/// What a slot no longer gives, in the old order.
pub(crate) fn left<P: Parts>(
    alloc: Global,
    old: &[Attribute<P>],
    new: &[Attribute<P>],
    number: u64,
    edits: &mut List<Edit>,
) -> Result<(), OutOfMemory>
    ensures { OnOk result (edits_of edits.new
        ≡ edits_of edits.old ++ all_left old.now new.now number) }
{
    for attribute in old {
        leave(alloc, attribute, new, number, edits)?;
    }
    Ok(())
}

#[tactic(auto, using(crate::proofs::Slots::slots))]
fn leave<P: Parts>(
    alloc: Global,
    attribute: &Attribute<P>,
    new: &[Attribute<P>],
    number: u64,
    edits: &mut List<Edit>,
) -> Result<(), OutOfMemory>
    ensures { OnOk result (edits_of edits.new
        ≡ edits_of edits.old ++ left_of number new.now attribute.now) }
{
    match &attribute.value {
        AttributeValue::Text(_) => {
            if text_under(new, attribute).is_none() {
                clear_text(alloc, attribute, number, edits)?;
            }
        }
        AttributeValue::None => {}
        AttributeValue::Listener(_) => {
            if !listens_under(new, attribute) {
                remove_listener(alloc, attribute, number, edits)?;
            }
        }
    }
    Ok(())
}

/// What a slot gives anew, in the new order. A changed handler gives no edit.
pub(crate) fn come<P: Parts>(
    alloc: Global,
    new: &[Attribute<P>],
    old: &[Attribute<P>],
    number: u64,
    edits: &mut List<Edit>,
) -> Result<(), OutOfMemory>
    ensures { OnOk result (edits_of edits.new
        ≡ edits_of edits.old ++ all_come new.now old.now number) }
{
    for attribute in new {
        enter(alloc, attribute, old, number, edits)?;
    }
    Ok(())
}

#[tactic(auto, using(crate::proofs::Slots::slots))]
fn enter<P: Parts>(
    alloc: Global,
    attribute: &Attribute<P>,
    old: &[Attribute<P>],
    number: u64,
    edits: &mut List<Edit>,
) -> Result<(), OutOfMemory>
    ensures { OnOk result (edits_of edits.new
        ≡ edits_of edits.old ++ come_of number old.now attribute.now) }
{
    match &attribute.value {
        AttributeValue::Text(text) => {
            if !has_the_text(old, attribute, text) {
                set_text(alloc, attribute, text, number, edits)?;
            }
        }
        AttributeValue::None => {}
        AttributeValue::Listener(_) => {
            if !listens_under(old, attribute) {
                create_listener(alloc, attribute, number, edits)?;
            }
        }
    }
    Ok(())
}

// One more edit: the attribute goes.
#[tactic(auto, using(crate::proofs::Slots::slots))]
fn clear_text<P: Parts>(
    alloc: Global,
    attribute: &Attribute<P>,
    number: u64,
    edits: &mut List<Edit>,
) -> Result<(), OutOfMemory>
    ensures { OnOk result (edits_of edits.new ≡ edits_of edits.old
        ++ doc.SetAttribute number attribute.now.name attribute.now.namespace None ∷ []) }
{
    let (name, namespace) = both(attribute.name.copy(alloc), attribute.namespace.copy(alloc))?;
    let id = ElementId(number);
    edits.push(Edit::SetAttribute {
        id,
        name,
        namespace,
        value: None,
    })
}

// One more edit: the attribute gets a text.
#[tactic(auto, using(crate::proofs::Slots::slots))]
fn set_text<P: Parts>(
    alloc: Global,
    attribute: &Attribute<P>,
    text: &Text,
    number: u64,
    edits: &mut List<Edit>,
) -> Result<(), OutOfMemory>
    ensures { OnOk result (edits_of edits.new ≡ edits_of edits.old
        ++ doc.SetAttribute number attribute.now.name attribute.now.namespace (Some text.now) ∷ []) }
{
    let names = both(attribute.name.copy(alloc), attribute.namespace.copy(alloc));
    let ((name, namespace), text) = both(names, text.copy(alloc))?;
    let id = ElementId(number);
    edits.push(Edit::SetAttribute {
        id,
        name,
        namespace,
        value: Some(text),
    })
}

// One more edit: the element listens no more.
#[tactic(auto, using(crate::proofs::Slots::slots))]
fn remove_listener<P: Parts>(
    alloc: Global,
    attribute: &Attribute<P>,
    number: u64,
    edits: &mut List<Edit>,
) -> Result<(), OutOfMemory>
    ensures { OnOk result (edits_of edits.new ≡ edits_of edits.old
        ++ doc.RemoveEventListener number attribute.now.name ∷ []) }
{
    let name = attribute.name.copy(alloc)?;
    let id = ElementId(number);
    edits.push(Edit::RemoveEventListener { id, name })
}

// One more edit: the element listens.
#[tactic(auto, using(crate::proofs::Slots::slots))]
fn create_listener<P: Parts>(
    alloc: Global,
    attribute: &Attribute<P>,
    number: u64,
    edits: &mut List<Edit>,
) -> Result<(), OutOfMemory>
    ensures { OnOk result (edits_of edits.new ≡ edits_of edits.old
        ++ doc.CreateEventListener number attribute.now.name ∷ []) }
{
    let name = attribute.name.copy(alloc)?;
    let id = ElementId(number);
    edits.push(Edit::CreateEventListener { id, name })
}

// The text that a slot gives under the name and namespace of an attribute.
#[tactic(auto, using(crate::proofs::Slots::slots))]
fn text_under<'a, P: Parts>(slot: &'a [Attribute<P>], attribute: &Attribute<P>) -> Option<&'a Text>
    ensures { text_found result ≡ text_among attribute.now slot.now }
{
    for other in slot {
        if let Some(text) = text_where(other, attribute) {
            return Some(text);
        }
    }
    None
}

#[tactic(auto, using(crate::proofs::Slots::slots))]
fn text_where<'a, P: Parts>(other: &'a Attribute<P>, attribute: &Attribute<P>) -> Option<&'a Text>
    ensures { text_found result ≡ text_here attribute.now other.now }
{
    if is_key(other, attribute) {
        text_in(&other.value)
    } else {
        None
    }
}

#[tactic(auto, using(crate::proofs::Slots::slots))]
fn text_in<P: Parts>(value: &AttributeValue<P>) -> Option<&Text>
    ensures { text_found result ≡ text_of value.now }
{
    match value {
        AttributeValue::Text(text) => Some(text),
        AttributeValue::None => None,
        AttributeValue::Listener(_) => None,
    }
}

// Whether a slot gives this text under the name and namespace of an attribute.
#[tactic(auto, using(crate::proofs::Slots::slots))]
fn has_the_text<P: Parts>(slot: &[Attribute<P>], attribute: &Attribute<P>, text: &Text) -> bool
    ensures { result ≡ gives_text attribute.now slot.now text.now }
{
    match text_under(slot, attribute) {
        Some(own) => is_same_text(own, text),
        None => false,
    }
}

// Whether a slot gives a listener under the name and namespace of an attribute.
#[tactic(auto, using(crate::proofs::Slots::slots))]
fn listens_under<P: Parts>(slot: &[Attribute<P>], attribute: &Attribute<P>) -> bool
    ensures { result ≡ listener_among attribute.now slot.now }
{
    for other in slot {
        if is_key(other, attribute) && is_listener(&other.value) {
            return true;
        }
    }
    false
}

#[tactic(auto, using(crate::proofs::Slots::slots))]
fn is_listener<P: Parts>(value: &AttributeValue<P>) -> bool
    ensures { result ≡ is_listening value.now }
{
    match value {
        AttributeValue::Listener(_) => true,
        AttributeValue::Text(_) => false,
        AttributeValue::None => false,
    }
}

// Whether two attributes have one name and namespace.
#[tactic(auto, using(crate::proofs::Slots::slots))]
fn is_key<P: Parts>(other: &Attribute<P>, attribute: &Attribute<P>) -> bool
    ensures { result ≡ has_key_of other.now attribute.now }
{
    is_same_text(&other.name, &attribute.name)
        && is_same_namespace(&other.namespace, &attribute.namespace)
}
