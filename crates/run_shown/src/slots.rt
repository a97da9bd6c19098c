//! What a slot writes in which no component and no items stand.

ghost use Rattle.std.specs.Prelude.{◌≡◌, [], IfOk};
ghost use Rattle.tree_nodes.specs.declared.vnode.DynamicNode.TheVariants as values;
ghost use Rattle.run_places.specs.Trails.{place_on};
ghost use Rattle.run_shown.specs.Units.{Writes, slot_writes};

use crate::calm::Sides;
use crate::edited::{Edited, nothing, one_edit};
use crate::sides::slot_replaced;
use rt_edits::Edit;
use rt_values::{ElementId, List, OutOfMemory, Part, Shared, Text};
use run_places::{Kind, Trail};
use std::alloc::Global;
use tree_nodes::{DynamicNode, Parts, VNode};

/// What a text writes in a slot.
#[tactic(auto, using(crate::proofs::Writings::writings))]
pub(crate) fn text_written<P: Parts>(
    alloc: Global,
    sides: &Sides<'_, P>,
    place: &Trail<'_>,
    text: &Text,
    new: &DynamicNode<P>,
    old: &DynamicNode<P>,
) -> Result<Edited, OutOfMemory>
    requires is { new.now ≡ values.Text text.now }
    ensures { IfOk result (λ written. Writes sides.now.unit.now written
        (λ app. slot_writes app sides.now (place_on place.now) new.now old.now)) }
{
    match old {
        DynamicNode::Text(was) => {
            if was.same(text) {
                return Ok(nothing(alloc));
            }
            let number = sides.old.side.number_on(place, Kind::Text);
            one_edit(
                alloc,
                Edit::SetNodeText {
                    id: ElementId(number),
                    text: text.copy(alloc)?,
                },
            )
        }
        DynamicNode::Placeholder => slot_replaced(alloc, sides, place, new, old),
        DynamicNode::Component(_) => slot_replaced(alloc, sides, place, new, old),
        DynamicNode::Fragment(_) => slot_replaced(alloc, sides, place, new, old),
    }
}

/// What a placeholder writes in a slot.
#[tactic(auto, using(crate::proofs::Writings::writings))]
pub(crate) fn placeholder_written<P: Parts>(
    alloc: Global,
    sides: &Sides<'_, P>,
    place: &Trail<'_>,
    new: &DynamicNode<P>,
    old: &DynamicNode<P>,
) -> Result<Edited, OutOfMemory>
    requires is { new.now ≡ values.Placeholder }
    ensures { IfOk result (λ written. Writes sides.now.unit.now written
        (λ app. slot_writes app sides.now (place_on place.now) new.now old.now)) }
{
    match old {
        DynamicNode::Placeholder => Ok(nothing(alloc)),
        DynamicNode::Text(_) => slot_replaced(alloc, sides, place, new, old),
        DynamicNode::Component(_) => slot_replaced(alloc, sides, place, new, old),
        DynamicNode::Fragment(_) => slot_replaced(alloc, sides, place, new, old),
    }
}

/// What a fragment without items writes where a fragment stood.
#[tactic(auto, using(crate::proofs::Writings::writings))]
pub(crate) fn no_items_written<P: Parts>(
    alloc: Global,
    sides: &Sides<'_, P>,
    place: &Trail<'_>,
    were: &Shared<VNode<P>>,
    new: &DynamicNode<P>,
    old: &DynamicNode<P>,
) -> Result<Edited, OutOfMemory>
    requires is { new.now ≡ values.Fragment [] }
    requires was { old.now ≡ values.Fragment were.now }
    ensures { IfOk result (λ written. Writes sides.now.unit.now written
        (λ app. slot_writes app sides.now (place_on place.now) new.now old.now)) }
{
    if were.is_empty() {
        return Ok(nothing(alloc));
    }
    slot_replaced(alloc, sides, place, new, old)
}
