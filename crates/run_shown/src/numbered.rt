//! The number of a node of a tree that shows. In a side's own tree the nodes come in the order in
//! which the side knows them, so most often the next one is meant. Of it the path alone is compared.

ghost use Rattle.std.specs.Prelude.{◌≡◌, ◌↔◌, true, IfSome, IsTrue};
ghost use Rattle.rt_model.specs.Lists.{at as under, or_else};
ghost use Rattle.tree_mirror.specs.Sealed.{template_of};
ghost use Rattle.run_places.specs.Apart.{Apart};
ghost use Rattle.run_places.specs.Places.{at_path, kind_of};
ghost use Rattle.run_places.specs.Sides.{number_in};
ghost use Rattle.run_places.specs.Trails.{path_of, place_on};
ghost use Rattle.run_shown.specs.Told.{IsOneStep, IsUnder, is_told, is_tree_of};

use crate::showing::Shown;
use rt_values::same_slice;
use run_places::{Kind, Path, Place, Side, Step, Trail, is_same_kind};
use tree_nodes::{Parts, VNode};

/// A tree of a side, at its place.
#[derive(Drop)]
pub(crate) struct Standing<'a, P: Parts> {
    pub shown: &'a Shown<'a, P>,
    pub tree: &'a VNode<P>,
    pub above: &'a Trail<'a>,
    /// Whether it is known to be the side's own tree, which stands at the root.
    pub own: bool,
    pub ghost told: { is_told own (is_tree_of shown.now.side.now tree.now (place_on above.now))
        ≡ true },
}

impl<P: Parts> Shown<'_, P> {
    /// The number of the node where a walk stands, 0 where it has none. It counts as shown.
    pub(crate) fn number_on(&self, place: &Trail<'_>, kind: Kind) -> u64
        ensures { result ≡ number_in self.now.side.now (place_on place.now) (kind_of kind) }
    {
        self.next.set(self.next.get().saturating_add(1));
        self.side.number_on(place, kind)
    }
}

/// The number of the node with a path in a tree, 0 where it has none. It counts as shown.
#[tactic(auto, using(crate::proofs::Views::views))]
pub(crate) fn number_at<P: Parts>(standing: &Standing<'_, P>, path: &Path<'_>, kind: Kind) -> u64
    ensures { result ≡ number_in (standing.now.shown.now).side.now
        (at_path (template_of (standing.now.tree.now).template) (place_on standing.now.above.now)
        (path_of path.now)) (kind_of kind) }
{
    match next_number(standing, path, kind) {
        Some(number) => number,
        None => {
            let place = Trail::Inside(&*standing.above, &standing.tree.template, &*path);
            standing.shown.number_on(&place, kind)
        }
    }
}

// The number of the next node of the side, where it has this path in the side's own tree.
fn next_number<P: Parts>(standing: &Standing<'_, P>, path: &Path<'_>, kind: Kind) -> Option<u64>
    ensures { IfSome result (λ number. number ≡ number_in (standing.now.shown.now).side.now
        (at_path (template_of (standing.now.tree.now).template) (place_on standing.now.above.now)
        (path_of path.now)) (kind_of kind)) }
{
    if !standing.own {
        return None;
    }
    let Some(_known) = standing.shown.named else {
        return None;
    };
    let next = standing.shown.next.get();
    if !is_under(standing.shown.side, next, path, kind) {
        return None;
    }
    standing.shown.next.set(next.saturating_add(1));
    Some(number_under(standing.shown.side, next))
}

// Whether the node under an index is of a kind, and stands one step below the root, at a path.
fn is_under<P: Parts>(side: &Side<P>, index: u64, path: &Path<'_>, kind: Kind) -> bool
    ensures under { result ≡ true →
        IsUnder side.now.nodes index (path_of path.now) (kind_of kind) }
    ensures apart { Apart side.now.nodes }
{
    match side.nodes.as_slice().get(index as usize) {
        Some(node) => {
            if !is_same_kind(node.kind, kind) {
                return false;
            }
            is_one_step(&node.place, path)
        }
        None => false,
    }
}

// Whether a place is one step, with this path in a template.
fn is_one_step(place: &Place, path: &Path<'_>) -> bool
    ensures { result ≡ true → IsOneStep place.now (path_of path.now) }
{
    let (above, last) = place.parts();
    match last {
        Some(
            Step::Inside {
                template: _,
                path: own,
            },
        ) => {
            if !above.is_empty() {
                return false;
            }
            leads_to(own.as_slice(), path)
        }
        Some(Step::Item { position: _ }) => false,
        None => false,
    }
}

// Whether a path leads there.
#[tactic(auto, using(crate::proofs::ToldNodes::paths))]
fn leads_to(path: &[u8], there: &Path<'_>) -> bool
    ensures { IsTrue result ↔ (path.now ≡ path_of there.now) }
{
    match (path, there) {
        ([], Path::Top) => true,
        ([front @ .., last], Path::Below(up, index)) => {
            u64::from(*last) == *index && leads_to(front, up)
        }
        (path, Path::Whole(whole)) => same_slice(path, whole),
        _ => false,
    }
}

// The number under the index of a node, 0 where none was drawn.
fn number_under<P: Parts>(side: &Side<P>, index: u64) -> u64
    ensures { result ≡ or_else 0 (under side.now.numbers index) }
{
    match side.numbers.get(index) {
        Some(number) => number,
        None => 0,
    }
}
