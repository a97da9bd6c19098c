//! One walk through a template, which counts its slots and tests each node that it meets.

ghost use Rattle.std.specs.Prelude.{◌≡◌, ◌+◌, ◌≤◌, length, map};
ghost use Rattle.tree_nodes.specs.Met.{met, met_among, met_attr, met_attrs};
ghost use Rattle.tree_fits.specs.Place.{path_of};
ghost use Rattle.tree_fits.specs.Walk.{next_slot, sought_by, walked};

use crate::names::names_differ;
use crate::place::{Place, leads_to};
use rt_values::List;
use tree_nodes::{Attribute, Parts, Template, TemplateAttribute, TemplateNode};

/// The most children of an element.
pub(crate) const CHILDREN: usize = 256;

/// What is walked through: a template, the attributes in its slots, and how many levels there may
/// be.
#[derive(Drop)]
pub(crate) struct Block<'a, P: Parts> {
    pub(crate) template: &'a Template,
    pub(crate) attrs: &'a [List<Attribute<P>>],
    pub(crate) levels: usize,
}

/// How many slots a walk has met.
#[derive(Clone, Copy)]
pub(crate) struct Seen {
    pub(crate) nodes: usize,
    pub(crate) attrs: usize,
}

/// Goes through siblings of a block's template, which stand below `parent` at a level counted from
/// 1. Answers what was seen by then, or `None` where something does not fit.
#[cycle(walk)]
pub(crate) fn walk_among<P: Parts>(
    nodes: &[TemplateNode],
    parent: &Place<'_>,
    level: usize,
    block: &Block<'_, P>,
    seen: Seen,
) -> Option<Seen>
    requires levels { block.now.levels ≤ 128 }
    requires few { length nodes.now ≤ 256 }
    requires level { level ≡ length (path_of parent.now) + 1 }
    requires within { level ≤ block.now.levels + 1 }
    ensures { result ≡ walked (sought_by block.now)
        (met_among (map met nodes.now) (path_of parent.now) 0) seen }
{
    let mut seen = seen;
    for (index, node) in nodes.iter().enumerate() {
        seen = walk(
            node,
            &Place::Below(&*parent, index as u8),
            level,
            block,
            seen,
        )?;
    }
    Some(seen)
}

#[cycle(walk)]
fn walk<P: Parts>(
    node: &TemplateNode,
    place: &Place<'_>,
    level: usize,
    block: &Block<'_, P>,
    seen: Seen,
) -> Option<Seen>
    requires levels { block.now.levels ≤ 128 }
    requires level { level ≡ length (path_of place.now) }
    ensures { result ≡ walked (sought_by block.now) (met node.now (path_of place.now)) seen }
{
    if level > block.levels {
        return None;
    }
    match node {
        TemplateNode::Element {
            attrs,
            children,
            ..
        } => {
            if children.len() > CHILDREN || !names_differ(attrs.as_slice(), block.attrs) {
                return None;
            }
            let seen = walk_attrs(attrs.as_slice(), place, block, seen)?;
            walk_among(children.as_slice(), place, level + 1, block, seen)
        }
        TemplateNode::Text { .. } => Some(seen),
        TemplateNode::Dynamic { id } => {
            let nodes = next_slot(block.template.node_paths(), place, *id, seen.nodes)?;
            Some(Seen { nodes, ..seen })
        }
    }
}

// The attribute slots of the element at a place.
fn walk_attrs<P: Parts>(
    attrs: &[TemplateAttribute],
    place: &Place<'_>,
    block: &Block<'_, P>,
    seen: Seen,
) -> Option<Seen>
    ensures { result ≡
        walked (sought_by block.now) (met_attrs (path_of place.now) attrs.now) seen }
{
    let mut seen = seen;
    for attr in attrs {
        seen = walk_attr(attr, place, block, seen)?;
    }
    Some(seen)
}

// An attribute of the element at a place: a slot where it is dynamic.
fn walk_attr<P: Parts>(
    attr: &TemplateAttribute,
    place: &Place<'_>,
    block: &Block<'_, P>,
    seen: Seen,
) -> Option<Seen>
    ensures { result ≡
        walked (sought_by block.now) (met_attr (path_of place.now) attr.now) seen }
{
    match attr {
        TemplateAttribute::Static { .. } => Some(seen),
        TemplateAttribute::Dynamic { id } => {
            let attrs = next_slot(block.template.attr_paths(), place, *id, seen.attrs)?;
            Some(Seen { attrs, ..seen })
        }
    }
}

// The number after `next`, where the slot at a place has the number `next` and its path is listed.
fn next_slot(paths: &[List<u8>], place: &Place<'_>, id: u64, next: usize) -> Option<usize>
    ensures { result ≡ next_slot paths.now (path_of place.now) id next }
{
    if next >= paths.len() || id != next as u64 {
        return None;
    }
    if leads_to(paths[next].as_slice(), place) {
        Some(next + 1)
    } else {
        None
    }
}
