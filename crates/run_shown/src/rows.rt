//! What shows, as rows of nodes.

ghost use Rattle.std.specs.Prelude.{◌≡◌, IfOk};
ghost use Rattle.tree_edits.specs.Documents.{forest_of};
ghost use Rattle.run_places.specs.Trails.{place_on};
ghost use Rattle.run_shown.specs.Means.{IsView};
ghost use Rattle.run_shown.specs.Seen.{items_in, scope_seen, tree_in, value_in};

use crate::look::Look;
use crate::showing::{Shown, show_items, show_scope, show_slot, show_tree};
use rt_edits::DocNode;
use rt_values::{List, OutOfMemory};
use run_places::{LEVELS, Trail};
use std::alloc::Global;
use tree_nodes::{DynamicNode, Parts, VNode};

/// The document that shows.
pub fn view<P: Parts>(alloc: Global, look: &Look<'_, P>) -> Result<List<DocNode>, OutOfMemory>
    ensures view { IfOk result (λ row. IsView row look.now 0) }
{
    nodes_of(alloc, look, 0)
}

/// The nodes of the document that a scope shows.
pub fn nodes_of<P: Parts>(
    alloc: Global,
    look: &Look<'_, P>,
    scope: u64,
) -> Result<List<DocNode>, OutOfMemory>
    ensures nodes { IfOk result (λ row. IsView row look.now scope) }
{
    scope_view(alloc, look, scope)
}

/// The nodes of the document that a scope shows, as the look sees it.
#[tactic(auto, using(crate::proofs::Views::views))]
pub(crate) fn scope_view<P: Parts>(
    alloc: Global,
    look: &Look<'_, P>,
    scope: u64,
) -> Result<List<DocNode>, OutOfMemory>
    ensures { IfOk result (λ row. forest_of row ≡ scope_seen look.now look.now.scopes scope) }
{
    let mut row = List::new(alloc);
    show_scope(alloc, look, look.scopes(), scope, LEVELS, &mut row)?;
    Ok(row)
}

/// The nodes of a tree that stands at `above`.
#[tactic(auto, using(crate::proofs::Views::views))]
pub(crate) fn tree_view<P: Parts>(
    alloc: Global,
    shown: &Shown<'_, P>,
    tree: &VNode<P>,
    above: &Trail<'_>,
) -> Result<List<DocNode>, OutOfMemory>
    ensures { IfOk result (λ row. forest_of row ≡ tree_in shown.now tree.now (place_on above.now)) }
{
    let mut row = List::new(alloc);
    show_tree(alloc, shown, tree, above, LEVELS, &mut row)?;
    Ok(row)
}

/// The nodes of what stands in a slot at a place.
#[tactic(auto, using(crate::proofs::Views::views))]
pub(crate) fn slot_view<P: Parts>(
    alloc: Global,
    shown: &Shown<'_, P>,
    value: &DynamicNode<P>,
    place: &Trail<'_>,
) -> Result<List<DocNode>, OutOfMemory>
    ensures { IfOk result (λ row. forest_of row
        ≡ value_in shown.now value.now (place_on place.now)) }
{
    let mut row = List::new(alloc);
    show_slot(alloc, shown, value, place, LEVELS, &mut row)?;
    Ok(row)
}

/// The nodes of a fragment's items, the first of which has the position `first`.
#[tactic(auto, using(crate::proofs::Views::views))]
pub(crate) fn items_view<P: Parts>(
    alloc: Global,
    shown: &Shown<'_, P>,
    first: u64,
    place: &Trail<'_>,
    trees: &[VNode<P>],
) -> Result<List<DocNode>, OutOfMemory>
    ensures { IfOk result (λ row. forest_of row
        ≡ items_in shown.now first (place_on place.now) trees.now) }
{
    let mut row = List::new(alloc);
    show_items(alloc, shown, first, place, trees, LEVELS, &mut row)?;
    Ok(row)
}
