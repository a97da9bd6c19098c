//! What a tree writes whose nodes all stay: slot by slot, and each number by the index of its node
//! among those that the side knows. So no place is compared, and templates once a tree.

ghost use Rattle.std.specs.Prelude.{◌≡◌, ◌+◌, ◌∷◌, [], Some, false, length, IfOk, IfSome};
ghost use Rattle.rt_model.specs.Lists.{at as under, or_else};
ghost use Rattle.rt_model.specs.Tree.{a_text, node_at};
ghost use Rattle.tree_nodes.specs.declared.vnode.DynamicNode.TheVariants as values;
ghost use Rattle.run_places.specs.Apart.{Apart};
ghost use Rattle.run_places.specs.Spots.{items_spots, tree_spots, value_spots};
ghost use Rattle.run_places.specs.Trails.{path_of, place_on};
ghost use Rattle.run_shown.specs.Still.{AreStill, IsStill, node_stands, row_stands};
ghost use Rattle.run_shown.specs.Units.{items_writes, node_writes, row_writes, slot_writes, tree_writes};

use crate::calm::Sides;
use rt_edits::Edit;
use rt_values::{ElementId, List, OutOfMemory, Part, Shared, Text};
use run_attributes::attributes_written;
use run_places::{LEVELS, Path, Side, Trail, down};
use std::alloc::Global;
use tree_nodes::{DynamicNode, Parts, TemplateNode, VNode};

/// What a tree writes that stands as the old one of a side that knows no component. None where it
/// stands otherwise, or a component stands in it.
pub(crate) fn still_written<P: Parts>(
    alloc: Global,
    sides: &Sides<'_, P>,
    new: &VNode<P>,
    old: &VNode<P>,
) -> Result<Option<List<Edit>>, OutOfMemory>
    requires stood { sides.now.old.now.side.now.output ≡ Some old.now }
    ensures { IfOk result (λ found.
        IfSome found (AreStill sides.now new.now old.now)) }
{
    if knows_seats(sides.old.side) {
        return Ok(None);
    }
    let mut edits = List::new(alloc);
    let found = tree_still(alloc, sides, 0, &Trail::Root, new, old, &mut edits, LEVELS)?;
    match found {
        Some(_end) => Ok(Some(edits)),
        None => Ok(None),
    }
}

// Whether a side knows a component.
fn knows_seats<P: Parts>(side: &Side<P>) -> bool
    ensures { result ≡ false → side.now.seats ≡ [] }
{
    match side.seats.as_slice() {
        [] => false,
        _ => true,
    }
}

// Writes what a tree does that stands as the old one, whose nodes begin at an index. The answer is
// the index behind them. None where it stands otherwise, or a component stands in it: then nothing
// is said of the edits.
#[cycle(still)]
fn tree_still<P: Parts>(
    alloc: Global,
    sides: &Sides<'_, P>,
    at: usize,
    above: &Trail<'_>,
    new: &VNode<P>,
    old: &VNode<P>,
    edits: &mut List<Edit>,
    levels: u64,
) -> Result<Option<usize>, OutOfMemory>
    ensures { IfOk result (λ found. IfSome found (λ next. IsStill sides.now at next
        (tree_spots (place_on above.now) old.now) edits.old edits.new
        (λ app. tree_writes app sides.now (place_on above.now) new.now old.now))) }
{
    let levels = down(levels)?;
    if !new.template.same(&old.template) {
        return Ok(None);
    }
    let attributes = attributes_written(alloc, sides.old.side, above, new, old)?;
    edits.append(attributes)?;
    let row = new.template.roots();
    row_still(
        alloc,
        sides,
        at,
        above,
        &Path::Top,
        row,
        new,
        old,
        edits,
        levels,
    )
}

// The same of these nodes of its template, one after another.
#[cycle(still)]
fn row_still<P: Parts>(
    alloc: Global,
    sides: &Sides<'_, P>,
    at: usize,
    above: &Trail<'_>,
    up: &Path<'_>,
    row: &[TemplateNode],
    new: &VNode<P>,
    old: &VNode<P>,
    edits: &mut List<Edit>,
    levels: u64,
) -> Result<Option<usize>, OutOfMemory>
    requires same { new.now.template ≡ old.now.template }
    ensures { IfOk result (λ found. IfSome found (λ next. IsStill sides.now at next
        (row_stands old.now (place_on above.now) (path_of up.now) 0 row.now)
        edits.old edits.new (λ app. row_writes app sides.now (place_on above.now) new.now old.now
        (path_of up.now) 0 row.now))) }
{
    let levels = down(levels)?;
    let mut next = at;
    for index in 0..row.len() {
        let node = &row[index];
        let position = index as u64;
        let found = node_still(
            alloc, sides, next, above, up, position, node, new, old, edits, levels,
        )?;
        let Some(end) = found else {
            return Ok(None);
        };
        next = end;
    }
    Ok(Some(next))
}

// The same of a node of its template.
#[cycle(still)]
fn node_still<P: Parts>(
    alloc: Global,
    sides: &Sides<'_, P>,
    at: usize,
    above: &Trail<'_>,
    up: &Path<'_>,
    index: u64,
    node: &TemplateNode,
    new: &VNode<P>,
    old: &VNode<P>,
    edits: &mut List<Edit>,
    levels: u64,
) -> Result<Option<usize>, OutOfMemory>
    requires same { new.now.template ≡ old.now.template }
    ensures { IfOk result (λ found. IfSome found (λ next. IsStill sides.now at next
        (node_stands old.now (place_on above.now) (path_of up.now) index node.now)
        edits.old edits.new (λ app. node_writes app sides.now (place_on above.now) new.now old.now
        (path_of up.now) index node.now))) }
{
    let levels = down(levels)?;
    let path = Path::Below(&*up, index);
    match node {
        TemplateNode::Element { children, .. } => {
            let Some(next) = behind(sides.old.side, at) else {
                return Ok(None);
            };
            let row = children.as_slice();
            row_still(
                alloc, sides, next, above, &path, row, new, old, edits, levels,
            )
        }
        TemplateNode::Text { .. } => Ok(behind(sides.old.side, at)),
        TemplateNode::Dynamic { id } => {
            let place = Trail::Inside(&*above, &new.template, &path);
            match new.dynamic_nodes.get(*id as usize) {
                Some(value) => match old.dynamic_nodes.get(*id as usize) {
                    Some(was) => value_still(alloc, sides, at, &place, value, was, edits, levels),
                    None => Ok(None),
                },
                None => Ok(None),
            }
        }
    }
}

// The same of what stands in a slot.
#[cycle(still)]
fn value_still<P: Parts>(
    alloc: Global,
    sides: &Sides<'_, P>,
    at: usize,
    place: &Trail<'_>,
    new: &DynamicNode<P>,
    old: &DynamicNode<P>,
    edits: &mut List<Edit>,
    levels: u64,
) -> Result<Option<usize>, OutOfMemory>
    ensures { IfOk result (λ found. IfSome found (λ next. IsStill sides.now at next
        (value_spots old.now (place_on place.now)) edits.old edits.new
        (λ app. slot_writes app sides.now (place_on place.now) new.now old.now))) }
{
    let levels = down(levels)?;
    match (new, old) {
        (DynamicNode::Text(text), DynamicNode::Text(was)) => {
            text_still(alloc, sides, at, place, text, was, edits)
        }
        (DynamicNode::Placeholder, DynamicNode::Placeholder) => Ok(behind(sides.old.side, at)),
        (DynamicNode::Fragment(trees), DynamicNode::Fragment(were)) => {
            fragment_still(alloc, sides, at, place, trees, were, edits, levels)
        }
        _ => Ok(None),
    }
}

// The same of a fragment.
#[cycle(still)]
fn fragment_still<P: Parts>(
    alloc: Global,
    sides: &Sides<'_, P>,
    at: usize,
    place: &Trail<'_>,
    trees: &Shared<VNode<P>>,
    were: &Shared<VNode<P>>,
    edits: &mut List<Edit>,
    levels: u64,
) -> Result<Option<usize>, OutOfMemory>
    ensures { IfOk result (λ found. IfSome found (λ next. IsStill sides.now at next
        (value_spots (values.Fragment were.now) (place_on place.now))
        edits.old edits.new (λ app. slot_writes app sides.now (place_on place.now)
        (values.Fragment trees.now) (values.Fragment were.now)))) }
{
    let levels = down(levels)?;
    let news = trees.as_slice();
    let olds = were.as_slice();
    if news.len() != olds.len() {
        return Ok(None);
    }
    if news.is_empty() {
        return Ok(behind(sides.old.side, at));
    }
    items_still(alloc, sides, at, place, news, olds, edits, levels)
}

// The same of the items of a fragment, as many as there were.
#[cycle(still)]
fn items_still<P: Parts>(
    alloc: Global,
    sides: &Sides<'_, P>,
    at: usize,
    place: &Trail<'_>,
    new: &[VNode<P>],
    old: &[VNode<P>],
    edits: &mut List<Edit>,
    levels: u64,
) -> Result<Option<usize>, OutOfMemory>
    requires even { length new.now ≡ length old.now }
    ensures { IfOk result (λ found. IfSome found (λ next. IsStill sides.now at next
        (items_spots 0 (place_on place.now) old.now) edits.old edits.new
        (λ app. items_writes app sides.now (place_on place.now) 0 0 new.now old.now))) }
{
    let levels = down(levels)?;
    let mut next = at;
    for position in 0..new.len() {
        let above = Trail::Item(&*place, position as u64);
        let tree = &new[position];
        let was = &old[position];
        let found = tree_still(alloc, sides, next, &above, tree, was, edits, levels)?;
        let Some(end) = found else {
            return Ok(None);
        };
        next = end;
    }
    Ok(Some(next))
}

// A text, where one stood.
fn text_still<P: Parts>(
    alloc: Global,
    sides: &Sides<'_, P>,
    at: usize,
    place: &Trail<'_>,
    text: &Text,
    was: &Text,
    edits: &mut List<Edit>,
) -> Result<Option<usize>, OutOfMemory>
    ensures { IfOk result (λ found. IfSome found (λ next. IsStill sides.now at next
        (node_at (place_on place.now) a_text ∷ []) edits.old edits.new
        (λ app. slot_writes app sides.now (place_on place.now)
        (values.Text text.now) (values.Text was.now)))) }
{
    let Some(next) = behind(sides.old.side, at) else {
        return Ok(None);
    };
    if was.same(text) {
        return Ok(Some(next));
    }
    let number = number_under(sides.old.side, at);
    edits.push(Edit::SetNodeText {
        id: ElementId(number),
        text: text.copy(alloc)?,
    })?;
    Ok(Some(next))
}

// The index behind a node of a side, where it has one there.
fn behind<P: Parts>(side: &Side<P>, at: usize) -> Option<usize>
    ensures next { IfSome result (λ next. next ≡ at + 1) }
    ensures apart { Apart side.now.nodes }
{
    if at >= side.nodes.as_slice().len() {
        return None;
    }
    Some(at + 1)
}

// The number under the index of a node, 0 where none was drawn.
fn number_under<P: Parts>(side: &Side<P>, at: usize) -> u64
    ensures { result ≡ or_else 0 (under side.now.numbers at) }
{
    match side.numbers.get(at as u64) {
        Some(number) => number,
        None => 0,
    }
}
