//! What is written at each mark, by what both blocks have when it comes up.

ghost use Rattle.std.specs.Prelude.{◌≡◌, ◌∷◌, [], drop, map, take, IfOk};
ghost use Rattle.rt_model.specs.OneLog.{types};
ghost use Rattle.rt_model.specs.World.{Application};
ghost use Rattle.run_met.specs.Mets.{mark_of};
ghost use Rattle.run_places.specs.Places.{place_of, side_of};
ghost use Rattle.run_shown.specs.Pieces.{items_pieces, slot_tops, tree_tops};
ghost use Rattle.run_shown.specs.Unknowns.{first_in};
ghost use Rattle.run_work.specs.Met.{items_in, items_out};
ghost use Rattle.tree_edits.specs.Documents.{edit_of};
ghost use Rattle.tree_marks.specs.Marks.{lone, slot_way, tree_way, worded};
ghost use Rattle.tree_marks.specs.Writing.{mark_writes};
ghost use Rattle.tree_mirror.specs.Sealed.{slot_of, tree_of};
ghost use Rattle.rt_tree.specs.Asks.{asked_at};
ghost use Rattle.rt_tree.specs.Owns.{last_or, own_writes};
ghost use Rattle.rt_tree.specs.Served.{both_now};

use crate::patch::Patch;
use rt_edits::Edit;
use rt_values::{ElementId, List, OutOfMemory, Part, Text};
use run_attributes::attributes_written;
use run_met::Met;
use run_places::{Kind, Place, Trail};
use run_shown::{
    Top, first_unknown, items_given, items_pieces, last_unknown, numbers_given, removals,
    replaced_by, slot_given, slot_pieces, tree_given, tree_pieces,
};
use std::alloc::Global;
use tree_nodes::{DynamicNode, Parts, VNode};

impl<P: Parts> Patch<P> {
    /// The scope that is asked for its nodes at a mark: the first that goes and of which none were
    /// given, or the last behind which more comes in.
    pub(crate) fn unknown_at(&self, alloc: Global, met: &Met<P>) -> Result<Option<u64>, OutOfMemory>
        ensures { IfOk result (λ unknown. unknown ≡ asked_at self.now (mark_of met.now)) }
    {
        match met {
            Met::Stays { .. } => Ok(None),
            Met::Goes { .. } => Ok(None),
            Met::Comes { .. } => Ok(None),
            Met::Fed { .. } => Ok(None),
            Met::Left { .. } => Ok(None),
            Met::Made { .. } => Ok(None),
            Met::Given { .. } => Ok(None),
            Met::Worded { .. } => Ok(None),
            Met::SlotGoes { place, was } => self.slot_unknown(alloc, place, was),
            Met::TreeGoes { above, was } => self.tree_unknown(alloc, above, was),
            Met::SlotWay { place, was, .. } => self.slot_unknown(alloc, place, was),
            Met::TreeWay { above, was, .. } => self.tree_unknown(alloc, above, was),
            Met::ComeIn {
                place,
                trees,
                first,
            } => {
                let front = self.tops_before(alloc, place, trees, *first)?;
                Ok(last_unknown(&self.given, front.as_slice()))
            }
            Met::GoOut {
                place,
                trees,
                first,
            } => {
                let tops = self.tops_from(alloc, place, trees, *first)?;
                Ok(first_unknown(&self.given, tops.as_slice()))
            }
            Met::Lone { .. } => Ok(None),
        }
    }

    // The first scope at the top of an old slot for which nothing was given.
    fn slot_unknown(
        &self,
        alloc: Global,
        place: &Place,
        was: &DynamicNode<P>,
    ) -> Result<Option<u64>, OutOfMemory>
        ensures { IfOk result (λ unknown. unknown ≡ first_in self.now.given
            (slot_tops (side_of self.now.old) (slot_of was.now) (place_of place.now))) }
    {
        let steps = place.steps(alloc)?;
        let tops = slot_pieces(alloc, &self.old, was, &Trail::At(&steps))?;
        Ok(first_unknown(&self.given, tops.as_slice()))
    }

    // The first one at the top of an old tree.
    fn tree_unknown(
        &self,
        alloc: Global,
        above: &Place,
        was: &VNode<P>,
    ) -> Result<Option<u64>, OutOfMemory>
        ensures { IfOk result (λ unknown. unknown ≡ first_in self.now.given
            (tree_tops (side_of self.now.old) (place_of above.now) (tree_of was.now))) }
    {
        let steps = above.steps(alloc)?;
        let tops = tree_pieces(alloc, &self.old, was, &Trail::At(&steps))?;
        Ok(first_unknown(&self.given, tops.as_slice()))
    }

    /// The edits of a mark.
    pub(crate) fn written_at(&self, alloc: Global, met: &Met<P>) -> Result<List<Edit>, OutOfMemory>
        ensures { IfOk result (λ edits. (app : Application
            (types P.Component P.Props P.Value P.Handler P.TaskState P.Effect P.Payload)) →
            map edit_of edits ≡ own_writes app (both_now self.now) (mark_of met.now)) }
    {
        match met {
            Met::Given { above, next, was } => {
                let steps = above.steps(alloc)?;
                attributes_written(alloc, &self.old, &Trail::At(&steps), next, was)
            }
            Met::Worded { place, next, was } => self.text_changes(alloc, place, next, was),
            Met::SlotWay { place, next, was } => self.slot_gives(alloc, place, next, was),
            Met::TreeWay { above, next, was } => self.tree_gives(alloc, above, next, was),
            Met::ComeIn {
                place,
                trees,
                first,
            } => self.items_come(alloc, place, trees, *first),
            Met::GoOut {
                place,
                trees,
                first,
            } => self.items_go(alloc, place, trees, *first),
            Met::Lone { place, next } => self.comes_alone(alloc, place, next),
            Met::Stays { .. } => Ok(List::new(alloc)),
            Met::Goes { .. } => Ok(List::new(alloc)),
            Met::Comes { .. } => Ok(List::new(alloc)),
            Met::Fed { .. } => Ok(List::new(alloc)),
            Met::Left { .. } => Ok(List::new(alloc)),
            Met::Made { .. } => Ok(List::new(alloc)),
            Met::SlotGoes { .. } => Ok(List::new(alloc)),
            Met::TreeGoes { .. } => Ok(List::new(alloc)),
        }
    }

    // A text comes in the place of another one.
    fn text_changes(
        &self,
        alloc: Global,
        place: &Place,
        next: &Text,
        was: &Text,
    ) -> Result<List<Edit>, OutOfMemory>
        ensures { IfOk result (λ edits. (app : Application
            (types P.Component P.Props P.Value P.Handler P.TaskState P.Effect P.Payload)) →
            map edit_of edits ≡ mark_writes app (both_now self.now)
            (worded (place_of place.now) next.now was.now)) }
    {
        if next.same(was) {
            return Ok(List::new(alloc));
        }
        let steps = place.steps(alloc)?;
        let text = next.copy(alloc)?;
        let id = ElementId(self.old.number_on(&Trail::At(&steps), Kind::Text));
        one_edit(alloc, Edit::SetNodeText { id, text })
    }

    // The items of a fragment from a position on go.
    fn items_go(
        &self,
        alloc: Global,
        place: &Place,
        trees: &List<VNode<P>>,
        first: u64,
    ) -> Result<List<Edit>, OutOfMemory>
        ensures { IfOk result (λ edits. (app : Application
            (types P.Component P.Props P.Value P.Handler P.TaskState P.Effect P.Payload)) →
            map edit_of edits ≡ mark_writes app (both_now self.now)
            (items_out (place_of place.now) first trees.now)) }
    {
        let tops = self.tops_from(alloc, place, trees, first)?;
        let numbers = numbers_given(alloc, &self.given, tops.as_slice())?;
        removals(alloc, numbers.as_slice())
    }

    // A slot's old nodes give way to its new ones.
    fn slot_gives(
        &self,
        alloc: Global,
        place: &Place,
        next: &DynamicNode<P>,
        was: &DynamicNode<P>,
    ) -> Result<List<Edit>, OutOfMemory>
        ensures { IfOk result (λ edits. (app : Application
            (types P.Component P.Props P.Value P.Handler P.TaskState P.Effect P.Payload)) →
            map edit_of edits ≡ mark_writes app (both_now self.now)
            (slot_way (place_of place.now) (slot_of next.now) (slot_of was.now))) }
    {
        let steps = place.steps(alloc)?;
        let trail = Trail::At(&steps);
        let tops = slot_pieces(alloc, &self.old, was, &trail)?;
        let numbers = numbers_given(alloc, &self.given, tops.as_slice())?;
        let nodes = slot_given(alloc, &self.new.side, &self.given, next, &trail)?;
        replaced_by(alloc, numbers.as_slice(), nodes)
    }

    // A tree's old nodes give way to those of the new one.
    fn tree_gives(
        &self,
        alloc: Global,
        above: &Place,
        next: &VNode<P>,
        was: &VNode<P>,
    ) -> Result<List<Edit>, OutOfMemory>
        ensures { IfOk result (λ edits. (app : Application
            (types P.Component P.Props P.Value P.Handler P.TaskState P.Effect P.Payload)) →
            map edit_of edits ≡ mark_writes app (both_now self.now)
            (tree_way (place_of above.now) (tree_of next.now) (tree_of was.now))) }
    {
        let steps = above.steps(alloc)?;
        let trail = Trail::At(&steps);
        let tops = tree_pieces(alloc, &self.old, was, &trail)?;
        let numbers = numbers_given(alloc, &self.given, tops.as_slice())?;
        let nodes = tree_given(alloc, &self.new.side, &self.given, next, &trail)?;
        replaced_by(alloc, numbers.as_slice(), nodes)
    }

    // The items of a fragment from a position on come behind those in front of them.
    fn items_come(
        &self,
        alloc: Global,
        place: &Place,
        trees: &List<VNode<P>>,
        first: u64,
    ) -> Result<List<Edit>, OutOfMemory>
        ensures { IfOk result (λ edits. (app : Application
            (types P.Component P.Props P.Value P.Handler P.TaskState P.Effect P.Payload)) →
            map edit_of edits ≡ mark_writes app (both_now self.now)
            (items_in (place_of place.now) first trees.now)) }
    {
        let front = self.tops_before(alloc, place, trees, first)?;
        let numbers = numbers_given(alloc, &self.given, front.as_slice())?;
        let steps = place.steps(alloc)?;
        let nodes = items_given(
            alloc,
            &self.new.side,
            &self.given,
            first,
            &Trail::At(&steps),
            items_from(trees, first),
        )?;
        let id = ElementId(last_number(numbers.as_slice()));
        one_edit(alloc, Edit::InsertNodesAfter { id, nodes })
    }

    // A slot comes that the old tree doesn't have.
    fn comes_alone(
        &self,
        alloc: Global,
        place: &Place,
        next: &DynamicNode<P>,
    ) -> Result<List<Edit>, OutOfMemory>
        ensures { IfOk result (λ edits. (app : Application
            (types P.Component P.Props P.Value P.Handler P.TaskState P.Effect P.Payload)) →
            map edit_of edits ≡ mark_writes app (both_now self.now)
            (lone (place_of place.now) (slot_of next.now))) }
    {
        if let DynamicNode::Placeholder = next {
            return Ok(List::new(alloc));
        }
        self.slot_gives(alloc, place, next, &DynamicNode::Placeholder)
    }

    // What stands at the top of the old items from a position on.
    fn tops_from(
        &self,
        alloc: Global,
        place: &Place,
        trees: &List<VNode<P>>,
        first: u64,
    ) -> Result<List<Top>, OutOfMemory>
        ensures { IfOk result (λ tops. tops
            ≡ items_pieces self.now.old first 0 (place_of place.now) (drop first trees.now)) }
    {
        let steps = place.steps(alloc)?;
        items_pieces(
            alloc,
            &self.old,
            first,
            &Trail::At(&steps),
            items_from(trees, first),
        )
    }

    // What stands at the top of the new items before a position.
    fn tops_before(
        &self,
        alloc: Global,
        place: &Place,
        trees: &List<VNode<P>>,
        first: u64,
    ) -> Result<List<Top>, OutOfMemory>
        ensures { IfOk result (λ tops. tops
            ≡ items_pieces self.now.new.side 0 0 (place_of place.now) (take first trees.now)) }
    {
        let steps = place.steps(alloc)?;
        items_pieces(
            alloc,
            &self.new.side,
            0,
            &Trail::At(&steps),
            items_before(trees, first),
        )
    }
}

// The items from a position on.
fn items_from<P: Parts>(trees: &List<VNode<P>>, first: u64) -> &[VNode<P>]
    ensures { result.now ≡ drop first trees.now }
{
    let first = first as usize;
    if trees.len() < first {
        return &[];
    }
    &trees.as_slice()[first..]
}

// The items before a position.
fn items_before<P: Parts>(trees: &List<VNode<P>>, first: u64) -> &[VNode<P>]
    ensures { result.now ≡ take first trees.now }
{
    let first = first as usize;
    if trees.len() < first {
        return trees.as_slice();
    }
    &trees.as_slice()[..first]
}

// The last number, 0 where there is none.
fn last_number(numbers: &[u64]) -> u64
    ensures { result ≡ last_or 0 numbers.now }
{
    let mut last = 0;
    for number in numbers {
        last = *number;
    }
    last
}

// One edit alone.
fn one_edit(alloc: Global, edit: Edit) -> Result<List<Edit>, OutOfMemory>
    ensures { IfOk result (λ edits. edits ≡ edit ∷ []) }
{
    let mut edits = List::new(alloc);
    edits.push(edit)?;
    Ok(edits)
}
