//! A tree without what stands in its node slots, tested by itself.

ghost use Rattle.std.specs.Prelude.{◌≡◌, ◌≤◌, length};
ghost use Rattle.std.specs.List.{list_all};
ghost use Rattle.tree_nodes.specs.BlockTest.{attribute_fits, block_fits, met_as};
ghost use Rattle.tree_nodes.specs.Met.{met_in};
ghost use Rattle.tree_fits.specs.Walk.{ends, sought_by};

use crate::place::Place;
use crate::walk::{Block, CHILDREN, Seen, walk_among};
use rt_values::List;
use tree_nodes::{Attribute, AttributeValue, Parts, Template};

/// Whether a tree of this template fits into so many levels, but for what stands in its node
/// slots, for which it has `values`.
pub fn block_fits<P: Parts>(
    template: &Template,
    values: usize,
    attrs: &[List<Attribute<P>>],
    levels: usize,
) -> bool
    requires { levels ≤ 128 }
    ensures { result ≡ block_fits template.now values attrs.now levels }
{
    let roots = template.roots().len();
    values == template.node_paths().len()
        && attrs.len() == template.attr_paths().len()
        && listeners_fit(attrs)
        && 0 < roots
        && roots <= CHILDREN
        && slots_are_met(&Block {
            template,
            attrs,
            levels,
        })
}

// Whether one walk through the template meets its slots in order and nothing that does not fit.
fn slots_are_met<P: Parts>(block: &Block<'_, P>) -> bool
    requires levels { block.now.levels ≤ 128 }
    requires few { length block.now.template.now.roots ≤ 256 }
    ensures { result ≡ met_as (sought_by block.now) (met_in block.now.template.now.roots) }
{
    let start = Seen { nodes: 0, attrs: 0 };
    let seen = walk_among(block.template.roots(), &Place::Top, 1, block, start);
    saw_all(
        seen,
        block.template.node_paths().len(),
        block.template.attr_paths().len(),
    )
}

// Whether a walk came to its end having seen so many slots.
fn saw_all(seen: Option<Seen>, nodes: usize, attrs: usize) -> bool
    ensures { result ≡ ends nodes attrs seen }
{
    match seen {
        Some(seen) => seen.nodes == nodes && seen.attrs == attrs,
        None => false,
    }
}

// Whether no listener in a slot has a namespace.
fn listeners_fit<P: Parts>(slots: &[List<Attribute<P>>]) -> bool
    ensures { result ≡ list_all (list_all attribute_fits) slots.now }
{
    for slot in slots {
        if !slot_fits(slot.as_slice()) {
            return false;
        }
    }
    true
}

/// Whether no listener in one slot has a namespace.
pub fn slot_fits<P: Parts>(slot: &[Attribute<P>]) -> bool
    ensures { result ≡ list_all attribute_fits slot.now }
{
    for attribute in slot {
        if !is_plain(attribute) {
            return false;
        }
    }
    true
}

fn is_plain<P: Parts>(attribute: &Attribute<P>) -> bool
    ensures { result ≡ attribute_fits attribute.now }
{
    match &attribute.value {
        AttributeValue::Text(_) => true,
        AttributeValue::None => true,
        AttributeValue::Listener(_) => attribute.namespace.is_none(),
    }
}
