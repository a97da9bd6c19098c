//! Whoever keeps all that is met.

ghost use Rattle.std.specs.Prelude.{◌≡◌, ◌++◌, ◌∷◌, [], IfOk};
ghost use Rattle.run_met.specs.Mets.{marks_of};

use crate::met::Met;
use rt_values::{List, OutOfMemory, Part, Text};
use run_places::{Kind, Trail, place_on};
use run_work::Takes;
use std::alloc::Global;
use tree_nodes::{DynamicNode, Parts, VComponent, VNode};

/// What was met so far, in order.
#[derive(Drop)]
pub struct Planning<P: Parts> {
    pub plan: List<Met<P>>,
}

impl<P: Parts> Takes<P> for Planning<P> {
    ghost one = { λ m a b. marks_of b.plan ≡ marks_of a.plan ++ m ∷ [] };

    fn stay(&mut self, alloc: Global, trail: &Trail<'_>, kind: Kind) -> Result<(), OutOfMemory> {
        let place = place_on(alloc, trail)?;
        self.plan.push(Met::Stays { place, kind })?;
        Ok(())
    }

    fn go(&mut self, alloc: Global, trail: &Trail<'_>, kind: Kind) -> Result<(), OutOfMemory> {
        let place = place_on(alloc, trail)?;
        self.plan.push(Met::Goes { place, kind })?;
        Ok(())
    }

    fn come(&mut self, alloc: Global, trail: &Trail<'_>, kind: Kind) -> Result<(), OutOfMemory> {
        let place = place_on(alloc, trail)?;
        self.plan.push(Met::Comes { place, kind })?;
        Ok(())
    }

    fn feed(
        &mut self,
        alloc: Global,
        trail: &Trail<'_>,
        was: &VComponent<P>,
        component: &VComponent<P>,
    ) -> Result<(), OutOfMemory> {
        let place = place_on(alloc, trail)?;
        let was = was.copy(alloc)?;
        let next = component.copy(alloc)?;
        self.plan.push(Met::Fed { place, was, next })?;
        Ok(())
    }

    fn leave(
        &mut self,
        alloc: Global,
        trail: &Trail<'_>,
        component: &VComponent<P>,
    ) -> Result<(), OutOfMemory> {
        let place = place_on(alloc, trail)?;
        let was = component.copy(alloc)?;
        self.plan.push(Met::Left { place, was })?;
        Ok(())
    }

    fn make(
        &mut self,
        alloc: Global,
        trail: &Trail<'_>,
        component: &VComponent<P>,
    ) -> Result<(), OutOfMemory> {
        let place = place_on(alloc, trail)?;
        let next = component.copy(alloc)?;
        self.plan.push(Met::Made { place, next })?;
        Ok(())
    }

    fn give(
        &mut self,
        alloc: Global,
        above: &Trail<'_>,
        new: &VNode<P>,
        old: &VNode<P>,
    ) -> Result<(), OutOfMemory> {
        let above = place_on(alloc, above)?;
        let next = new.copy(alloc)?;
        let was = old.copy(alloc)?;
        self.plan.push(Met::Given { above, next, was })?;
        Ok(())
    }

    fn word(
        &mut self,
        alloc: Global,
        trail: &Trail<'_>,
        new: &Text,
        old: &Text,
    ) -> Result<(), OutOfMemory> {
        let place = place_on(alloc, trail)?;
        let next = new.copy(alloc)?;
        let was = old.copy(alloc)?;
        self.plan.push(Met::Worded { place, next, was })?;
        Ok(())
    }

    fn slot_go(
        &mut self,
        alloc: Global,
        trail: &Trail<'_>,
        old: &DynamicNode<P>,
    ) -> Result<(), OutOfMemory> {
        let place = place_on(alloc, trail)?;
        let was = old.copy(alloc)?;
        self.plan.push(Met::SlotGoes { place, was })?;
        Ok(())
    }

    fn tree_go(
        &mut self,
        alloc: Global,
        above: &Trail<'_>,
        old: &VNode<P>,
    ) -> Result<(), OutOfMemory> {
        let above = place_on(alloc, above)?;
        let was = old.copy(alloc)?;
        self.plan.push(Met::TreeGoes { above, was })?;
        Ok(())
    }

    fn slot_gives_way(
        &mut self,
        alloc: Global,
        trail: &Trail<'_>,
        new: &DynamicNode<P>,
        old: &DynamicNode<P>,
    ) -> Result<(), OutOfMemory> {
        let place = place_on(alloc, trail)?;
        let next = new.copy(alloc)?;
        let was = old.copy(alloc)?;
        self.plan.push(Met::SlotWay { place, next, was })?;
        Ok(())
    }

    fn tree_gives_way(
        &mut self,
        alloc: Global,
        above: &Trail<'_>,
        new: &VNode<P>,
        old: &VNode<P>,
    ) -> Result<(), OutOfMemory> {
        let above = place_on(alloc, above)?;
        let next = new.copy(alloc)?;
        let was = old.copy(alloc)?;
        self.plan.push(Met::TreeWay { above, next, was })?;
        Ok(())
    }

    fn come_in(
        &mut self,
        alloc: Global,
        trail: &Trail<'_>,
        trees: &[VNode<P>],
        first: usize,
    ) -> Result<(), OutOfMemory> {
        let place = place_on(alloc, trail)?;
        let trees = copies(alloc, trees)?;
        let first = first as u64;
        self.plan.push(Met::ComeIn {
            place,
            trees,
            first,
        })?;
        Ok(())
    }

    fn go_out(
        &mut self,
        alloc: Global,
        trail: &Trail<'_>,
        trees: &[VNode<P>],
        first: usize,
    ) -> Result<(), OutOfMemory> {
        let place = place_on(alloc, trail)?;
        let trees = copies(alloc, trees)?;
        let first = first as u64;
        self.plan.push(Met::GoOut {
            place,
            trees,
            first,
        })?;
        Ok(())
    }

    fn alone(
        &mut self,
        alloc: Global,
        trail: &Trail<'_>,
        new: &DynamicNode<P>,
    ) -> Result<(), OutOfMemory> {
        let place = place_on(alloc, trail)?;
        let next = new.copy(alloc)?;
        self.plan.push(Met::Lone { place, next })?;
        Ok(())
    }
}

// Copies of trees, in their order.
fn copies<P: Parts>(alloc: Global, trees: &[VNode<P>]) -> Result<List<VNode<P>>, OutOfMemory>
    ensures { IfOk result (λ copies. copies ≡ trees.now) }
{
    let mut copies = List::with_room(alloc, trees.len())?;
    for tree in trees {
        copies.push(tree.copy(alloc)?)?;
    }
    Ok(copies)
}
