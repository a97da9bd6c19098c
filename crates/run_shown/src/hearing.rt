//! The listeners that an event calls.

ghost use Rattle.std.specs.Prelude.{◌≡◌, ◌++◌, IfOk, OnOk};
ghost use Rattle.rt_model.specs.Heard as hears;
ghost use Rattle.run_shown.specs.Hearing.{attribute_heard, bubbling_heard, climb_heard, event_heard, first_heard, first_listening, listeners_of, slot_given, slot_heard, slots_heard, slots_in_order, target_heard, value_heard, value_listens};
ghost use Rattle.run_shown.specs.Leading.{IsHolder, KnowSeats};
ghost use Rattle.run_shown.specs.Means.{AreHeard};

use crate::climb::{Climb, Slots};
use crate::finding::find;
use crate::look::Look;
use rt_values::{List, OutOfMemory, Part, Text, same_slice};
use std::alloc::Global;
use tree_nodes::{Attribute, AttributeValue, Parts};

/// A listener: the scope in which it is called, and its handler.
#[derive(Drop)]
pub struct Listener<P: Parts> {
    pub origin: u64,
    pub handler: P::Handler,
}

/// The listeners of an event at an element, in the order in which they are called: where it bubbles
/// from the element outwards, else those of the element alone. It is told which scope has the element.
pub fn heard<P: Parts>(
    alloc: Global,
    look: &Look<'_, P>,
    holder: Option<u64>,
    event: &Text,
    element: u64,
    bubbles: bool,
) -> Result<List<Listener<P>>, OutOfMemory>
    requires holds { IsHolder look.now element holder }
    requires seated { KnowSeats look.now }
    ensures heard { IfOk result (λ listeners.
        AreHeard listeners look.now event.now element bubbles) }
{
    if element == 0 {
        return Ok(List::new(alloc));
    }
    match find(alloc, look, element, holder)? {
        Some(climb) => heard_on(alloc, event, bubbles, &climb),
        None => Ok(List::new(alloc)),
    }
}

// The listeners of an element that was found.
fn heard_on<P: Parts>(
    alloc: Global,
    event: &Text,
    bubbles: bool,
    climb: &Climb<P>,
) -> Result<List<Listener<P>>, OutOfMemory>
    ensures { IfOk result (λ listeners. listeners_of listeners
        ≡ event_heard event.now bubbles climb.now) }
{
    let mut listeners = List::new(alloc);
    add_heard(alloc, event, bubbles, climb, &mut listeners)?;
    Ok(listeners)
}

// By whether the event bubbles.
#[tactic(auto, using(crate::proofs::Hearings::hearings))]
fn add_heard<P: Parts>(
    alloc: Global,
    event: &Text,
    bubbles: bool,
    climb: &Climb<P>,
    listeners: &mut List<Listener<P>>,
) -> Result<(), OutOfMemory>
    ensures { OnOk result (listeners_of listeners.new
        ≡ listeners_of listeners.old ++ event_heard event.now bubbles climb.now) }
{
    if bubbles {
        bubbling(alloc, event, climb.as_slice(), listeners)
    } else {
        at_target(alloc, event, climb.as_slice(), listeners)
    }
}

// The listeners of an event that bubbles, innermost first: of the element itself one of each slot,
// of the elements further out all.
#[tactic(auto, using(crate::proofs::Hearings::hearings))]
fn bubbling<P: Parts>(
    alloc: Global,
    event: &Text,
    climb: &[Slots<P>],
    listeners: &mut List<Listener<P>>,
) -> Result<(), OutOfMemory>
    ensures { OnOk result (listeners_of listeners.new
        ≡ listeners_of listeners.old ++ bubbling_heard event.now climb.now) }
{
    if climb.len() == 0 {
        return Ok(());
    }
    of_slots(alloc, event, true, climb[0].as_slice(), listeners)?;
    climbing(alloc, event, &climb[1..], listeners)
}

// All matching listeners of the elements further out.
#[tactic(auto, using(crate::proofs::Hearings::hearings))]
fn climbing<P: Parts>(
    alloc: Global,
    event: &Text,
    above: &[Slots<P>],
    listeners: &mut List<Listener<P>>,
) -> Result<(), OutOfMemory>
    ensures { OnOk result (listeners_of listeners.new
        ≡ listeners_of listeners.old ++ climb_heard event.now above.now) }
{
    for slots in above {
        of_slots(alloc, event, false, slots.as_slice(), listeners)?;
    }
    Ok(())
}

// What the slots of an element give, the last slot first: of each the first matching attribute, or
// all that match.
#[tactic(auto, using(crate::proofs::Hearings::hearings))]
fn of_slots<P: Parts>(
    alloc: Global,
    event: &Text,
    first: bool,
    slots: &[List<Attribute<P>>],
    listeners: &mut List<Listener<P>>,
) -> Result<(), OutOfMemory>
    ensures { OnOk result (listeners_of listeners.new
        ≡ listeners_of listeners.old ++ slots_heard event.now first slots.now) }
{
    for at in (0..slots.len()).rev() {
        of_slot(alloc, event, first, slots[at].as_slice(), listeners)?;
    }
    Ok(())
}

// What a slot gives: its first matching attribute, or all that match.
#[tactic(auto, using(crate::proofs::Hearings::hearings))]
fn of_slot<P: Parts>(
    alloc: Global,
    event: &Text,
    first: bool,
    slot: &[Attribute<P>],
    listeners: &mut List<Listener<P>>,
) -> Result<(), OutOfMemory>
    ensures { OnOk result (listeners_of listeners.new
        ≡ listeners_of listeners.old ++ slot_given event.now first slot.now) }
{
    if first {
        first_matching(alloc, event, slot, listeners)
    } else {
        all_matching(alloc, event, slot, listeners)
    }
}

#[tactic(auto, using(crate::proofs::Hearings::hearings))]
fn all_matching<P: Parts>(
    alloc: Global,
    event: &Text,
    slot: &[Attribute<P>],
    listeners: &mut List<Listener<P>>,
) -> Result<(), OutOfMemory>
    ensures { OnOk result (listeners_of listeners.new
        ≡ listeners_of listeners.old ++ slot_heard event.now slot.now) }
{
    for at in (0..slot.len()).rev() {
        add_matching(alloc, event, &slot[at], listeners)?;
    }
    Ok(())
}

// The listener of an attribute, where its name matches.
#[tactic(auto, using(crate::proofs::Hearings::hearings))]
fn add_matching<P: Parts>(
    alloc: Global,
    event: &Text,
    attribute: &Attribute<P>,
    listeners: &mut List<Listener<P>>,
) -> Result<(), OutOfMemory>
    ensures { OnOk result (listeners_of listeners.new
        ≡ listeners_of listeners.old ++ attribute_heard event.now attribute.now) }
{
    if matches(&attribute.name, event) {
        return add_listener(alloc, &attribute.value, listeners);
    }
    Ok(())
}

// The slot's first attribute with a matching name, where that is a listener.
#[tactic(auto, using(crate::proofs::Hearings::hearings))]
fn first_matching<P: Parts>(
    alloc: Global,
    event: &Text,
    slot: &[Attribute<P>],
    listeners: &mut List<Listener<P>>,
) -> Result<(), OutOfMemory>
    ensures { OnOk result (listeners_of listeners.new
        ≡ listeners_of listeners.old ++ first_heard event.now slot.now) }
{
    for attribute in slot {
        if matches(&attribute.name, event) {
            return add_listener(alloc, &attribute.value, listeners);
        }
    }
    Ok(())
}

// The listeners of an event that doesn't bubble: the first one of each slot, in the slots' order.
#[tactic(auto, using(crate::proofs::Hearings::hearings))]
fn at_target<P: Parts>(
    alloc: Global,
    event: &Text,
    climb: &[Slots<P>],
    listeners: &mut List<Listener<P>>,
) -> Result<(), OutOfMemory>
    ensures { OnOk result (listeners_of listeners.new
        ≡ listeners_of listeners.old ++ target_heard event.now climb.now) }
{
    if climb.len() == 0 {
        return Ok(());
    }
    in_order(alloc, event, climb[0].as_slice(), listeners)
}

// The first listener of each slot, in order.
#[tactic(auto, using(crate::proofs::Hearings::hearings))]
fn in_order<P: Parts>(
    alloc: Global,
    event: &Text,
    slots: &[List<Attribute<P>>],
    listeners: &mut List<Listener<P>>,
) -> Result<(), OutOfMemory>
    ensures { OnOk result (listeners_of listeners.new
        ≡ listeners_of listeners.old ++ slots_in_order event.now slots.now) }
{
    for slot in slots {
        first_listener(alloc, event, slot.as_slice(), listeners)?;
    }
    Ok(())
}

// The slot's first matching listener.
#[tactic(auto, using(crate::proofs::Hearings::hearings))]
fn first_listener<P: Parts>(
    alloc: Global,
    event: &Text,
    slot: &[Attribute<P>],
    listeners: &mut List<Listener<P>>,
) -> Result<(), OutOfMemory>
    ensures { OnOk result (listeners_of listeners.new
        ≡ listeners_of listeners.old ++ first_listening event.now slot.now) }
{
    for attribute in slot {
        if matches(&attribute.name, event) && is_listener(&attribute.value) {
            return add_listener(alloc, &attribute.value, listeners);
        }
    }
    Ok(())
}

// An attribute's name matches where its bytes from the third on are the event's name.
fn matches(name: &Text, event: &Text) -> bool
    ensures { result ≡ hears.matches name.now event.now }
{
    if name.len() < 2 {
        return false;
    }
    same_slice(&name.as_bytes()[2..], event.as_bytes())
}

// Whether an attribute's value is a listener.
#[tactic(auto, using(crate::proofs::Hearings::hearings))]
fn is_listener<P: Parts>(value: &AttributeValue<P>) -> bool
    ensures { result ≡ value_listens value.now }
{
    match value {
        AttributeValue::Listener(_) => true,
        AttributeValue::Text(_) => false,
        AttributeValue::None => false,
    }
}

#[tactic(auto, using(crate::proofs::Hearings::hearings))]
fn add_listener<P: Parts>(
    alloc: Global,
    value: &AttributeValue<P>,
    listeners: &mut List<Listener<P>>,
) -> Result<(), OutOfMemory>
    ensures { OnOk result (listeners_of listeners.new
        ≡ listeners_of listeners.old ++ value_heard value.now) }
{
    match value {
        AttributeValue::Listener(found) => {
            let handler = found.handler.copy(alloc)?;
            listeners.push(Listener {
                origin: found.origin.0,
                handler,
            })
        }
        AttributeValue::Text(_) => Ok(()),
        AttributeValue::None => Ok(()),
    }
}
