//! Which rule of the node test a tree breaks, and where.
ghost use Rattle.std.specs.Prelude.{◌≡◌, [], IfOk, map};
ghost use Rattle.std.specs.List.{list_all};
ghost use Rattle.author_pieces.specs.Breaches as breaches;

use crate::numbering::below;
use rt_values::{List, OutOfMemory};
use std::alloc::Global;
use tree_fits::{in_slot, names_differ, slot_fits};
use tree_nodes::{Attribute, Parts, TemplateAttribute, TemplateNode, VNode};

/// A rule of the node test that a tree breaks.
#[derive(Clone, Copy, Debug, PartialEq, Eq)]
pub enum Breach {
    /// A tree has 1 to 256 roots.
    Roots,
    /// An element has at most 256 children.
    Children,
    /// Nothing stands below the 128th level.
    Levels,
    /// No two attributes of an element have the same name.
    Names,
    /// A listener has no namespace.
    Namespace,
    /// What stands in the slots fits there, and is as much as there are slots.
    Slots,
}

/// Markup of which no tree comes that passes the node test: the first of the rules that it breaks,
/// as it is read from its start.
#[derive(Debug, Drop)]
pub struct BadMarkup {
    pub breach: Breach,
    /// The path of the node that breaks the rule: the index of its root, and then the index of a
    /// child at each level below. Where roots or slots do, it has no step.
    pub path: List<u8>,
}

/// The most roots of a tree, and children of an element.
const CHILDREN: usize = 256;

/// How many levels a tree may have.
const LEVELS: usize = 128;

/// The first rule that a tree breaks which doesn't pass the node test, and where.
pub(crate) fn bad_markup<P: Parts>(alloc: Global, tree: &VNode<P>) -> Result<BadMarkup, OutOfMemory>
    ensures bad { IfOk result (λ bad. bad ≡ breaches.bad_markup tree.now) }
{
    let roots = tree.template.roots();
    if are_no_roots(roots.len()) {
        return Ok(of_all(alloc, Breach::Roots));
    }
    let slots = tree.dynamic_attrs.as_slice();
    match bad_among(alloc, slots, &[], roots)? {
        Some(bad) => Ok(bad),
        None => Ok(of_all(alloc, Breach::Slots)),
    }
}

/// Whether no tree has so many roots.
fn are_no_roots(count: usize) -> bool
    ensures refused { result ≡ breaches.are_no_roots count }
{
    count == 0 || count > CHILDREN
}

/// A rule that a tree breaks as a whole.
fn of_all(alloc: Global, breach: Breach) -> BadMarkup
    ensures bad { result ≡ breaches.at [] breach }
{
    BadMarkup {
        breach,
        path: List::new(alloc),
    }
}

/// The first rule that one of these nodes breaks, which stand below a path.
#[cycle(bad_in)]
#[tactic(auto, using(crate::proofs::BreachLemmas::read))]
fn bad_among<P: Parts>(
    alloc: Global,
    slots: &[List<Attribute<P>>],
    above: &[u8],
    nodes: &[TemplateNode],
) -> Result<Option<BadMarkup>, OutOfMemory>
    ensures bad { IfOk result (λ bad. bad
        ≡ breaches.bad_among (map (breaches.bad_in slots.now) nodes.now) above.now 0) }
{
    for index in 0..nodes.len() {
        let path = below(alloc, above, index)?;
        let bad = bad_in(alloc, slots, path, &nodes[index])?;
        match bad {
            Some(bad) => return Ok(Some(bad)),
            None => {}
        }
    }
    Ok(None)
}

/// The first rule that the node at a path breaks, or one below it.
#[cycle(bad_in)]
#[tactic(auto, using(crate::proofs::BreachLemmas::read))]
fn bad_in<P: Parts>(
    alloc: Global,
    slots: &[List<Attribute<P>>],
    path: List<u8>,
    node: &TemplateNode,
) -> Result<Option<BadMarkup>, OutOfMemory>
    ensures bad { IfOk result (λ bad. bad ≡ breaches.bad_in slots.now node.now path) }
{
    let level = path.len();
    match node {
        TemplateNode::Text { .. } => Ok(found(path, deep(level))),
        TemplateNode::Dynamic { .. } => Ok(found(path, deep(level))),
        TemplateNode::Element {
            attrs,
            children,
            ..
        } => match broken(slots, level, attrs.as_slice(), children.len()) {
            Some(breach) => Ok(Some(BadMarkup { breach, path })),
            None => bad_among(alloc, slots, path.as_slice(), children.as_slice()),
        },
    }
}

/// A breach, if there is one, with its path.
fn found(path: List<u8>, breach: Option<Breach>) -> Option<BadMarkup>
    ensures bad { result ≡ breaches.found path breach }
{
    match breach {
        Some(breach) => Some(BadMarkup { breach, path }),
        None => None,
    }
}

/// Whether a level is one too many.
fn deep(level: usize) -> Option<Breach>
    ensures breach { result ≡ breaches.deep level }
{
    if level > LEVELS {
        Some(Breach::Levels)
    } else {
        None
    }
}

/// The rule that an element at a level breaks by itself.
fn broken<P: Parts>(
    slots: &[List<Attribute<P>>],
    level: usize,
    attrs: &[TemplateAttribute],
    children: usize,
) -> Option<Breach>
    ensures breach { result ≡ breaches.broken slots.now level attrs.now children }
{
    if level > LEVELS {
        Some(Breach::Levels)
    } else if children > CHILDREN {
        Some(Breach::Children)
    } else if !names_differ(attrs, slots) {
        Some(Breach::Names)
    } else if !listeners_fit(slots, attrs) {
        Some(Breach::Namespace)
    } else {
        None
    }
}

/// Whether no listener of an element has a namespace.
fn listeners_fit<P: Parts>(slots: &[List<Attribute<P>>], attrs: &[TemplateAttribute]) -> bool
    ensures plain { result ≡ list_all (breaches.attr_fits slots.now) attrs.now }
{
    for attr in attrs {
        if !attr_fits(slots, attr) {
            return false;
        }
    }
    true
}

/// Whether no listener in the slot of an attribute has a namespace.
fn attr_fits<P: Parts>(slots: &[List<Attribute<P>>], attr: &TemplateAttribute) -> bool
    ensures plain { result ≡ breaches.attr_fits slots.now attr.now }
{
    match attr {
        TemplateAttribute::Static { .. } => true,
        TemplateAttribute::Dynamic { id } => slot_fits(in_slot(slots, *id)),
    }
}
