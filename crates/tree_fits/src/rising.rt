//! Names that ascend, and so differ: the common case, which one look at each of them tells.

ghost use Rattle.std.specs.Prelude.{◌≡◌, [], map, option_map, Some, None, if◌then◌else◌};
ghost use Rattle.std.specs.Ordering.{is_lt, nat_cmp};
ghost use Rattle.std.specs.Cmp.Lexicographic.{slice_cmp};
ghost use Rattle.tree_nodes.specs.Names.{name_of, names_in, names_of, slot_names};
ghost use Rattle.tree_fits.specs.Rising.{risen};

use crate::names::in_slot;
use rt_values::{List, Text};
use tree_nodes::{Attribute, Parts, TemplateAttribute};

/// The last of an element's names, where each comes after the one before it, by its bytes.
pub(crate) fn last_name<'a, P: Parts>(
    attrs: &'a [TemplateAttribute],
    slots: &'a [List<Attribute<P>>],
) -> Option<&'a str>
    ensures { option_map (λ last. last.now) result
        ≡ risen [] (names_in (slot_names slots.now) attrs.now) }
{
    let mut last = "";
    for attr in attrs {
        last = rise(attr, slots, last)?;
    }
    Some(last)
}

// The last of one attribute's names, which come after `last`.
fn rise<'a, P: Parts>(
    attr: &'a TemplateAttribute,
    slots: &'a [List<Attribute<P>>],
    last: &'a str,
) -> Option<&'a str>
    ensures { option_map (λ next. next.now) result
        ≡ risen last.now (names_of (slot_names slots.now) attr.now) }
{
    match attr {
        TemplateAttribute::Static { name, .. } => rise_to(name, last),
        TemplateAttribute::Dynamic { id } => rise_in_slot(in_slot(slots, *id), last),
    }
}

// The last of the names in a slot, which come after `last`.
fn rise_in_slot<'a, P: Parts>(slot: &'a [Attribute<P>], last: &'a str) -> Option<&'a str>
    ensures { option_map (λ next. next.now) result ≡ risen last.now (map name_of slot.now) }
{
    let mut last = last;
    for attribute in slot {
        last = rise_to(&attribute.name, last)?;
    }
    Some(last)
}

// A name that comes after `last`.
fn rise_to<'a>(name: &'a Text, last: &str) -> Option<&'a str>
    ensures { option_map (λ next. next.now) result
        ≡ (if is_lt (slice_cmp nat_cmp last.now name.now) then Some name.now else None) }
{
    if comes_before(last, name) {
        Some(name.as_str())
    } else {
        None
    }
}

fn comes_before(last: &str, name: &Text) -> bool
    ensures { result ≡ is_lt (slice_cmp nat_cmp last.now name.now) }
{
    last.cmp(name.as_str()).is_lt()
}
