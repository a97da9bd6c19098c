//! What shows: the kept outputs with their numbers, put into one another.

ghost use Rattle.std.specs.Prelude.{◌≡◌, ◌+◌, [], IfOk, OnOk};
ghost use Rattle.rt_model.specs.Document.{DocElement, Empty, Node, join_rows};
ghost use Rattle.run_attributes.specs.Content.{with_all_listeners, with_entries};
ghost use Rattle.tree_edits.specs.Documents.{content_of, forest_below, forest_of};
ghost use Rattle.tree_mirror.specs.Sealed.{template_of};
ghost use Rattle.run_places.specs.Places.{at_path, kind_of};
ghost use Rattle.run_places.specs.Sides.{number_in};
ghost use Rattle.run_places.specs.Trails.{path_of, place_on};
ghost use Rattle.run_shown.specs.Seen.{child_seen, items_in, node_in, row_in, scope_seen, seen_by, side_seen, tree_in, value_in};

use crate::asked::{Asked, show_given};
use crate::look::Look;
use crate::numbered::{Standing, number_at};
use rt_edits::{DocKind, DocNode};
use rt_values::{ElementId, List, OutOfMemory, Part, Text, both};
use run_attributes::{element_attributes, element_listeners};
use run_places::{Kind, Path, Side, Trail, down};
use std::alloc::Global;
use std::cell::Cell;
use tree_nodes::{Attribute, DynamicNode, Parts, TemplateAttribute, TemplateNode, VNode};

/// A side whose tree is shown, and who is asked for what its components show.
#[derive(Drop)]
pub(crate) struct Shown<'a, P: Parts> {
    pub asked: Asked<'a, P>,
    pub side: &'a Side<P>,
    /// A component of the application's, where one is known: then components can be told apart, so
    /// the side knows the nodes of its tree.
    pub named: Option<&'a P::Component>,
    /// Which of its nodes most likely shows next. It is tested, and no clause says what it is.
    pub next: Cell<u64>,
}

/// Puts the nodes of a scope after the others, at most `depth` scopes deep.
#[cycle(view)]
#[tactic(auto, using(crate::proofs::Views::views))]
pub(crate) fn show_scope<P: Parts>(
    alloc: Global,
    look: &Look<'_, P>,
    depth: u64,
    scope: u64,
    levels: u64,
    row: &mut List<DocNode>,
) -> Result<(), OutOfMemory>
    ensures { OnOk result (forest_of row.new
        ≡ join_rows (forest_of row.old) (scope_seen look.now depth scope)) }
{
    let levels = down(levels)?;
    if depth == 0 {
        return Ok(());
    }
    match look.shown_side(scope) {
        Some(side) => {
            let shown = Shown {
                asked: Asked::Look(&*look, depth - 1),
                side,
                named: look.named(scope),
                next: Cell::new(0),
            };
            show_side(alloc, &shown, levels, row)
        }
        None => Ok(()),
    }
}

#[cycle(view)]
#[tactic(auto, using(crate::proofs::Views::views))]
fn show_side<P: Parts>(
    alloc: Global,
    shown: &Shown<'_, P>,
    levels: u64,
    row: &mut List<DocNode>,
) -> Result<(), OutOfMemory>
    ensures { OnOk result (forest_of row.new ≡ join_rows (forest_of row.old)
        (side_seen shown.now.asked shown.now.side.now)) }
{
    let levels = down(levels)?;
    match &shown.side.output {
        Some(tree) => {
            let root = Trail::Root;
            let standing = Standing {
                shown: &*shown,
                tree,
                above: &root,
                own: true,
            };
            let nodes = tree.template.roots();
            show_nodes(alloc, &standing, &Path::Top, nodes, levels, row)
        }
        None => Ok(()),
    }
}

/// Puts the nodes of a tree that stands at `above` after the others.
#[cycle(view)]
#[tactic(auto, using(crate::proofs::Views::views))]
pub(crate) fn show_tree<P: Parts>(
    alloc: Global,
    shown: &Shown<'_, P>,
    tree: &VNode<P>,
    above: &Trail<'_>,
    levels: u64,
    row: &mut List<DocNode>,
) -> Result<(), OutOfMemory>
    ensures { OnOk result (forest_of row.new
        ≡ join_rows (forest_of row.old) (tree_in shown.now tree.now (place_on above.now))) }
{
    let levels = down(levels)?;
    let standing = Standing {
        shown: &*shown,
        tree,
        above: &*above,
        own: false,
    };
    let nodes = tree.template.roots();
    show_nodes(alloc, &standing, &Path::Top, nodes, levels, row)
}

// Those of these nodes of a template, below the one with the path `up`.
#[cycle(view)]
#[tactic(auto, using(crate::proofs::Views::views))]
fn show_nodes<P: Parts>(
    alloc: Global,
    standing: &Standing<'_, P>,
    up: &Path<'_>,
    nodes: &[TemplateNode],
    levels: u64,
    row: &mut List<DocNode>,
) -> Result<(), OutOfMemory>
    ensures { OnOk result (forest_of row.new
        ≡ join_rows (forest_of row.old) (row_in standing.now (path_of up.now) 0 nodes.now)) }
{
    let levels = down(levels)?;
    for index in 0..nodes.len() {
        let node = &nodes[index];
        show_node(alloc, standing, up, index as u64, node, levels, row)?;
    }
    Ok(())
}

// Those of a node of a template, which has an index below the one with the path `up`.
#[cycle(view)]
#[tactic(auto, using(crate::proofs::Views::views))]
fn show_node<P: Parts>(
    alloc: Global,
    standing: &Standing<'_, P>,
    up: &Path<'_>,
    index: u64,
    node: &TemplateNode,
    levels: u64,
    row: &mut List<DocNode>,
) -> Result<(), OutOfMemory>
    ensures { OnOk result (forest_of row.new
        ≡ join_rows (forest_of row.old) (node_in standing.now (path_of up.now) index node.now)) }
{
    let levels = down(levels)?;
    let path = Path::Below(&*up, index);
    match node {
        TemplateNode::Element {
            tag,
            namespace,
            attrs,
            children,
        } => {
            let number = number_at(standing, &path, Kind::Element);
            let mut below = List::new(alloc);
            let nodes = children.as_slice();
            show_nodes(alloc, standing, &path, nodes, levels, &mut below)?;
            let given = standing.tree.dynamic_attrs.as_slice();
            let kind = element(alloc, given, tag, namespace, attrs.as_slice(), below)?;
            push_node(number, kind, row)
        }
        TemplateNode::Text { text } => {
            let number = number_at(standing, &path, Kind::StaticText);
            let kind = DocKind::Text(text.copy(alloc)?);
            push_node(number, kind, row)
        }
        TemplateNode::Dynamic { id } => match standing.tree.dynamic_nodes.get(*id as usize) {
            Some(value) => show_value(alloc, standing, &path, value, levels, row),
            None => Ok(()),
        },
    }
}

// Those of what stands in a slot of a tree, at a path.
#[cycle(view)]
#[tactic(auto, using(crate::proofs::Views::views))]
fn show_value<P: Parts>(
    alloc: Global,
    standing: &Standing<'_, P>,
    path: &Path<'_>,
    value: &DynamicNode<P>,
    levels: u64,
    row: &mut List<DocNode>,
) -> Result<(), OutOfMemory>
    ensures { OnOk result (forest_of row.new ≡ join_rows (forest_of row.old)
        (value_in standing.now.shown.now value.now
        (at_path (template_of (standing.now.tree.now).template) (place_on standing.now.above.now)
        (path_of path.now)))) }
{
    let levels = down(levels)?;
    match value {
        DynamicNode::Text(text) => {
            let number = number_at(standing, path, Kind::Text);
            let kind = DocKind::Text(text.copy(alloc)?);
            push_node(number, kind, row)
        }
        other => {
            let place = Trail::Inside(&*standing.above, &standing.tree.template, &*path);
            show_slot(alloc, standing.shown, other, &place, levels, row)
        }
    }
}

// An element with these entries in its template, round its children.
#[tactic(auto, using(crate::proofs::Views::views))]
fn element<P: Parts>(
    alloc: Global,
    given: &[List<Attribute<P>>],
    tag: &Text,
    namespace: &Option<Text>,
    entries: &[TemplateAttribute],
    children: List<DocNode>,
) -> Result<DocKind, OutOfMemory>
    ensures content { IfOk result (λ kind. content_of kind ≡ DocElement tag.now namespace.now
        (with_entries given.now [] entries.now) (with_all_listeners given.now [] entries.now)) }
    ensures below { IfOk result (λ kind. forest_below kind ≡ forest_of children) }
{
    let names = both(tag.copy(alloc), namespace.copy(alloc));
    let lists = both(
        element_attributes(alloc, given, entries),
        element_listeners(alloc, given, entries),
    );
    let ((tag, namespace), (attrs, listeners)) = both(names, lists)?;
    Ok(DocKind::Element {
        tag,
        namespace,
        attrs,
        listeners,
        children,
    })
}

/// Puts the nodes of what stands in a slot at a place after the others.
#[cycle(view)]
#[tactic(auto, using(crate::proofs::Views::views))]
pub(crate) fn show_slot<P: Parts>(
    alloc: Global,
    shown: &Shown<'_, P>,
    value: &DynamicNode<P>,
    place: &Trail<'_>,
    levels: u64,
    row: &mut List<DocNode>,
) -> Result<(), OutOfMemory>
    ensures { OnOk result (forest_of row.new
        ≡ join_rows (forest_of row.old) (value_in shown.now value.now (place_on place.now))) }
{
    let levels = down(levels)?;
    match value {
        DynamicNode::Text(text) => {
            let number = shown.number_on(place, Kind::Text);
            let kind = DocKind::Text(text.copy(alloc)?);
            push_node(number, kind, row)
        }
        DynamicNode::Placeholder => {
            let number = shown.number_on(place, Kind::Placeholder);
            push_node(number, DocKind::Placeholder, row)
        }
        DynamicNode::Component(_) => show_child(alloc, shown, place, levels, row),
        DynamicNode::Fragment(trees) => {
            if trees.is_empty() {
                let number = shown.number_on(place, Kind::EmptyFragment);
                return push_node(number, DocKind::Placeholder, row);
            }
            show_items(alloc, shown, 0, place, trees.as_slice(), levels, row)
        }
    }
}

// Those of the child scope at a place.
#[cycle(view)]
#[tactic(auto, using(crate::proofs::Views::views))]
fn show_child<P: Parts>(
    alloc: Global,
    shown: &Shown<'_, P>,
    place: &Trail<'_>,
    levels: u64,
    row: &mut List<DocNode>,
) -> Result<(), OutOfMemory>
    ensures { OnOk result (forest_of row.new ≡ join_rows (forest_of row.old)
        (child_seen shown.now.asked shown.now.side.now (place_on place.now))) }
{
    let levels = down(levels)?;
    match shown.side.child_on(place) {
        Some(child) => show_asked(alloc, &shown.asked, child, levels, row),
        None => Ok(()),
    }
}

// Those of a child scope, by who is asked.
#[cycle(view)]
#[tactic(auto, using(crate::proofs::Views::views))]
fn show_asked<P: Parts>(
    alloc: Global,
    asked: &Asked<'_, P>,
    scope: u64,
    levels: u64,
    row: &mut List<DocNode>,
) -> Result<(), OutOfMemory>
    ensures { OnOk result (forest_of row.new
        ≡ join_rows (forest_of row.old) (seen_by asked.now scope)) }
{
    let levels = down(levels)?;
    match asked {
        Asked::Look(look, depth) => show_scope(alloc, look, *depth, scope, levels, row),
        Asked::Given(given) => show_given(alloc, given, scope, row),
    }
}

/// Puts the nodes of a fragment's items, the first of which has the position `first`, after the
/// others.
#[cycle(view)]
#[tactic(auto, using(crate::proofs::Views::views))]
pub(crate) fn show_items<P: Parts>(
    alloc: Global,
    shown: &Shown<'_, P>,
    first: u64,
    place: &Trail<'_>,
    trees: &[VNode<P>],
    levels: u64,
    row: &mut List<DocNode>,
) -> Result<(), OutOfMemory>
    ensures { OnOk result (forest_of row.new
        ≡ join_rows (forest_of row.old) (items_in shown.now first (place_on place.now) trees.now)) }
{
    let levels = down(levels)?;
    for index in 0..trees.len() {
        let position = position_after(first, index as u64)?;
        let above = Trail::Item(&*place, position);
        show_tree(alloc, shown, &trees[index], &above, levels, row)?;
    }
    Ok(())
}

/// The position so many items further on.
pub(crate) fn position_after(first: u64, index: u64) -> Result<u64, OutOfMemory>
    ensures { IfOk result (λ position. position ≡ first + index) }
{
    match first.checked_add(index) {
        Some(position) => Ok(position),
        None => Err(OutOfMemory),
    }
}

// Puts the node with a number after the others.
#[tactic(auto, using(crate::proofs::Views::views))]
fn push_node(number: u64, content: DocKind, row: &mut List<DocNode>) -> Result<(), OutOfMemory>
    ensures { OnOk result (forest_of row.new ≡ join_rows (forest_of row.old)
        (Node number (content_of content) (forest_below content) Empty)) }
{
    row.push(DocNode {
        id: ElementId(number),
        kind: content,
    })
}
