//! Who takes what a walk over an old tree and a new one meets.

ghost use Rattle.std.specs.Prelude.{OnOk};
ghost use Rattle.rt_model.specs.OneLog.{types};
ghost use Rattle.tree_mirror.specs.Sealed.{component_of, slot_of, tree_of};
ghost use Rattle.tree_marks.specs.Marks.{Mark, stays, goes, comes, fed, left, made, worded, slot_goes, tree_goes, slot_way, tree_way, lone};
ghost use Rattle.run_places.specs.Places.{kind_of};
ghost use Rattle.run_places.specs.Trails.{place_on};
ghost use Rattle.run_work.specs.Met.{items_in, items_out, template_gives};

use rt_values::{OutOfMemory, Part, Text};
use run_places::{Kind, Trail};
use std::alloc::Global;
use tree_nodes::{DynamicNode, Parts, VComponent, VNode};

/// Takes what a walk over an old tree and a new one meets, mark after mark.
pub trait Takes<P: Parts>: Drop {
    /// What one mark makes of the one that takes.
    ghost one: { Mark (types P.Component P.Props P.Value P.Handler P.TaskState P.Effect P.Payload)
        → Self → Self → Type 0 };

    /// A node of both trees stays.
    fn stay(&mut self, alloc: Global, trail: &Trail<'_>, kind: Kind) -> Result<(), OutOfMemory>
        ensures taken { OnOk result (one (stays (place_on trail.now) (kind_of kind))
            self.old self.new) };

    /// A node of the old tree goes.
    fn go(&mut self, alloc: Global, trail: &Trail<'_>, kind: Kind) -> Result<(), OutOfMemory>
        ensures taken { OnOk result (one (goes (place_on trail.now) (kind_of kind))
            self.old self.new) };

    /// A node of the new tree comes.
    fn come(&mut self, alloc: Global, trail: &Trail<'_>, kind: Kind) -> Result<(), OutOfMemory>
        ensures taken { OnOk result (one (comes (place_on trail.now) (kind_of kind))
            self.old self.new) };

    /// A component of both trees stays, and its child is fed.
    fn feed(
        &mut self,
        alloc: Global,
        trail: &Trail<'_>,
        was: &VComponent<P>,
        component: &VComponent<P>,
    ) -> Result<(), OutOfMemory>
        ensures taken { OnOk result (one (fed (place_on trail.now) (component_of was.now)
            (component_of component.now)) self.old self.new) };

    /// A component of the old tree goes, and its child is left.
    fn leave(
        &mut self,
        alloc: Global,
        trail: &Trail<'_>,
        component: &VComponent<P>,
    ) -> Result<(), OutOfMemory>
        ensures taken { OnOk result (one (left (place_on trail.now) (component_of component.now))
            self.old self.new) };

    /// A component of the new tree comes, and a child is made for it.
    fn make(
        &mut self,
        alloc: Global,
        trail: &Trail<'_>,
        component: &VComponent<P>,
    ) -> Result<(), OutOfMemory>
        ensures taken { OnOk result (one (made (place_on trail.now) (component_of component.now))
            self.old self.new) };

    /// A template stays, with what the attribute slots of both trees give.
    fn give(
        &mut self,
        alloc: Global,
        above: &Trail<'_>,
        new: &VNode<P>,
        old: &VNode<P>,
    ) -> Result<(), OutOfMemory>
        ensures taken { OnOk result (one (template_gives (place_on above.now) new.now old.now)
            self.old self.new) };

    /// A text stays, or another one comes in its place.
    fn word(
        &mut self,
        alloc: Global,
        trail: &Trail<'_>,
        new: &Text,
        old: &Text,
    ) -> Result<(), OutOfMemory>
        ensures taken { OnOk result (one (worded (place_on trail.now) new.now old.now)
            self.old self.new) };

    /// A slot's old nodes are to go.
    fn slot_go(
        &mut self,
        alloc: Global,
        trail: &Trail<'_>,
        old: &DynamicNode<P>,
    ) -> Result<(), OutOfMemory>
        ensures taken { OnOk result (one (slot_goes (place_on trail.now) (slot_of old.now))
            self.old self.new) };

    /// A tree's old nodes are to go.
    fn tree_go(
        &mut self,
        alloc: Global,
        above: &Trail<'_>,
        old: &VNode<P>,
    ) -> Result<(), OutOfMemory>
        ensures taken { OnOk result (one (tree_goes (place_on above.now) (tree_of old.now))
            self.old self.new) };

    /// A slot's old nodes give way: all that comes there was met.
    fn slot_gives_way(
        &mut self,
        alloc: Global,
        trail: &Trail<'_>,
        new: &DynamicNode<P>,
        old: &DynamicNode<P>,
    ) -> Result<(), OutOfMemory>
        ensures taken { OnOk result (one (slot_way (place_on trail.now) (slot_of new.now)
            (slot_of old.now)) self.old self.new) };

    /// A tree's old nodes do.
    fn tree_gives_way(
        &mut self,
        alloc: Global,
        above: &Trail<'_>,
        new: &VNode<P>,
        old: &VNode<P>,
    ) -> Result<(), OutOfMemory>
        ensures taken { OnOk result (one (tree_way (place_on above.now) (tree_of new.now)
            (tree_of old.now)) self.old self.new) };

    /// The items of a fragment from a position on came behind those in front of them.
    fn come_in(
        &mut self,
        alloc: Global,
        trail: &Trail<'_>,
        trees: &[VNode<P>],
        first: usize,
    ) -> Result<(), OutOfMemory>
        ensures taken { OnOk result (one (items_in (place_on trail.now) first trees.now)
            self.old self.new) };

    /// The items of a fragment from a position on go.
    fn go_out(
        &mut self,
        alloc: Global,
        trail: &Trail<'_>,
        trees: &[VNode<P>],
        first: usize,
    ) -> Result<(), OutOfMemory>
        ensures taken { OnOk result (one (items_out (place_on trail.now) first trees.now)
            self.old self.new) };

    /// A slot came that the old tree doesn't have.
    fn alone(
        &mut self,
        alloc: Global,
        trail: &Trail<'_>,
        new: &DynamicNode<P>,
    ) -> Result<(), OutOfMemory>
        ensures taken { OnOk result (one (lone (place_on trail.now) (slot_of new.now))
            self.old self.new) };
}
