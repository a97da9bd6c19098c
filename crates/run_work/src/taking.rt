//! The runtime takes of a walk what a new tree on a side leads to.

ghost use Rattle.std.specs.Prelude.{◌≡◌};
ghost use Rattle.run_work.specs.After.{after};
ghost use Rattle.run_work.specs.Grounds.{ground_of, out_of};
ghost use Rattle.run_work.specs.Marked.{event_at};

use crate::patched::{Ground, Patched};
use crate::takes::Takes;
use rt_values::{OutOfMemory, Part, Text};
use run_places::{Kind, Trail};
use std::alloc::Global;
use tree_nodes::{DynamicNode, Parts, VComponent, VNode};

/// What a new tree leads to on a side, as far as the walk went. What is written is none of it.
#[derive(Drop)]
pub(crate) struct Taking<'a, P: Parts> {
    pub ground: Ground<'a, P>,
    pub out: Patched<P>,
}

impl<'a, P: Parts> Takes<P> for Taking<'a, P> {
    ghost one = { λ m a b. (b.ground ≡ a.ground)
        × (out_of b.out ≡ after (ground_of a.ground) (event_at m) (out_of a.out)) };

    fn stay(&mut self, alloc: Global, trail: &Trail<'_>, kind: Kind) -> Result<(), OutOfMemory> {
        self.out.stay(alloc, &self.ground, trail, kind)?;
        Ok(())
    }

    fn go(&mut self, _alloc: Global, _trail: &Trail<'_>, _kind: Kind) -> Result<(), OutOfMemory> {
        Ok(())
    }

    fn come(&mut self, alloc: Global, trail: &Trail<'_>, kind: Kind) -> Result<(), OutOfMemory> {
        self.out.come(alloc, &self.ground, trail, kind)?;
        Ok(())
    }

    fn feed(
        &mut self,
        alloc: Global,
        trail: &Trail<'_>,
        was: &VComponent<P>,
        component: &VComponent<P>,
    ) -> Result<(), OutOfMemory> {
        self.out.feed(alloc, &self.ground, trail, was, component)?;
        Ok(())
    }

    fn leave(
        &mut self,
        _alloc: Global,
        trail: &Trail<'_>,
        component: &VComponent<P>,
    ) -> Result<(), OutOfMemory> {
        self.out.leave(&self.ground, trail, component)?;
        Ok(())
    }

    fn make(
        &mut self,
        alloc: Global,
        trail: &Trail<'_>,
        component: &VComponent<P>,
    ) -> Result<(), OutOfMemory> {
        self.out.make(alloc, &self.ground, trail, component)?;
        Ok(())
    }

    fn give(
        &mut self,
        _alloc: Global,
        _above: &Trail<'_>,
        _new: &VNode<P>,
        _old: &VNode<P>,
    ) -> Result<(), OutOfMemory> {
        Ok(())
    }

    fn word(
        &mut self,
        _alloc: Global,
        _trail: &Trail<'_>,
        _new: &Text,
        _old: &Text,
    ) -> Result<(), OutOfMemory> {
        Ok(())
    }

    fn slot_go(
        &mut self,
        _alloc: Global,
        _trail: &Trail<'_>,
        _old: &DynamicNode<P>,
    ) -> Result<(), OutOfMemory> {
        Ok(())
    }

    fn tree_go(
        &mut self,
        _alloc: Global,
        _above: &Trail<'_>,
        _old: &VNode<P>,
    ) -> Result<(), OutOfMemory> {
        Ok(())
    }

    fn slot_gives_way(
        &mut self,
        _alloc: Global,
        _trail: &Trail<'_>,
        _new: &DynamicNode<P>,
        _old: &DynamicNode<P>,
    ) -> Result<(), OutOfMemory> {
        Ok(())
    }

    fn tree_gives_way(
        &mut self,
        _alloc: Global,
        _above: &Trail<'_>,
        _new: &VNode<P>,
        _old: &VNode<P>,
    ) -> Result<(), OutOfMemory> {
        Ok(())
    }

    fn come_in(
        &mut self,
        _alloc: Global,
        _trail: &Trail<'_>,
        _trees: &[VNode<P>],
        _first: usize,
    ) -> Result<(), OutOfMemory> {
        Ok(())
    }

    fn go_out(
        &mut self,
        _alloc: Global,
        _trail: &Trail<'_>,
        _trees: &[VNode<P>],
        _first: usize,
    ) -> Result<(), OutOfMemory> {
        Ok(())
    }

    fn alone(
        &mut self,
        _alloc: Global,
        _trail: &Trail<'_>,
        _new: &DynamicNode<P>,
    ) -> Result<(), OutOfMemory> {
        Ok(())
    }
}
