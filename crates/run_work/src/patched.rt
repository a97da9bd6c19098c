//! What becomes of the nodes and components of an old tree and a new one, spot by spot.

ghost use Rattle.std.specs.Prelude.{◌≡◌, ◌∷◌, ◌++◌, [], None, length, replicate, IfOk, OnOk};
ghost use Rattle.std.specs.Option.{option_copied};
ghost use Rattle.tree_mirror.specs.Sealed.{component_of};
ghost use Rattle.run_places.specs.Apart.{Apart};
ghost use Rattle.run_places.specs.Places.{kind_of, place_of};
ghost use Rattle.run_places.specs.Trails.{place_on, steps_of};
ghost use Rattle.run_work.specs.After.{after, goes_to, nothing_yet};
ghost use Rattle.run_work.specs.Events as events;
ghost use Rattle.run_work.specs.Grounds.{ground_of, known_or, node_known, out_of, seat_known};

use crate::item::Item;
use rt_values::{List, OutOfMemory, Part};
use run_places::{Kind, NodeAt, Place, Side, SideName, Trail, place_on};
use std::alloc::Global;
use tree_nodes::{Parts, VComponent};

// So few things are no long list, and most trees have at most so many more than before.
const FEW: usize = 8;

/// The side on which a new tree comes in the place of an old one.
#[derive(Drop)]
pub(crate) struct Ground<'a, P: Parts> {
    pub scope: u64,
    pub name: SideName,
    pub side: &'a Side<P>,
}

/// What a new tree leads to, as far as both trees were walked through.
#[derive(Drop)]
pub struct Patched<P: Parts> {
    /// A number for each new node, a feed for each kept child, a make for each other component.
    pub work: List<Item<P>>,
    /// A drop for each child that isn't kept.
    pub drops: List<Item<P>>,
    /// The new tree's nodes, and the places of its components.
    pub nodes: List<NodeAt>,
    pub seats: List<Place>,
    /// For each node that the side knows its index among the new ones, none where it isn't there.
    pub nodes_to: List<Option<u64>>,
    /// For each component that it knows its index among the new ones, none where its child isn't
    /// kept.
    pub seats_to: List<Option<u64>>,
}

impl<P: Parts> Patched<P> {
    /// Nothing was walked through yet.
    pub(crate) fn new(alloc: Global, side: &Side<P>) -> Result<Patched<P>, OutOfMemory>
        ensures none { IfOk result (λ out. out_of out
            ≡ nothing_yet (length side.now.nodes) (length side.now.seats)) }
        ensures nodes_apart { IfOk result (λ out. Apart side.now.nodes) }
        ensures seats_apart { IfOk result (λ out. Apart side.now.seats) }
    {
        let nodes = side.nodes.as_slice().len();
        let seats = side.seats.as_slice().len();
        Ok(Patched {
            work: List::with_room(alloc, room_for(seats))?,
            drops: List::new(alloc),
            nodes: List::with_room(alloc, room_for(nodes))?,
            seats: List::with_room(alloc, room_for(seats))?,
            nodes_to: nowhere(alloc, nodes)?,
            seats_to: nowhere(alloc, seats)?,
        })
    }

    /// A node stays.
    pub(crate) fn stay(
        &mut self,
        alloc: Global,
        ground: &Ground<'_, P>,
        trail: &Trail<'_>,
        kind: Kind,
    ) -> Result<(), OutOfMemory>
        ensures { OnOk result (out_of self.new ≡ after (ground_of ground.now)
            (events.stays (place_on trail.now) (kind_of kind) ∷ []) (out_of self.old)) }
    {
        let _place = self.add_node(alloc, ground, trail, kind)?;
        Ok(())
    }

    /// A new node comes, and a number is drawn for it.
    pub(crate) fn come(
        &mut self,
        alloc: Global,
        ground: &Ground<'_, P>,
        trail: &Trail<'_>,
        kind: Kind,
    ) -> Result<(), OutOfMemory>
        ensures { OnOk result (out_of self.new ≡ after (ground_of ground.now)
            (events.comes (place_on trail.now) (kind_of kind) ∷ []) (out_of self.old)) }
    {
        let place = self.add_node(alloc, ground, trail, kind)?;
        self.work.push(Item::Draw {
            scope: ground.scope,
            side: ground.name,
            place,
            kind,
        })
    }

    // Puts the new tree's next node after the others. Its place is shared with the node that the
    // side knows, if it does.
    fn add_node(
        &mut self,
        alloc: Global,
        ground: &Ground<'_, P>,
        trail: &Trail<'_>,
        kind: Kind,
    ) -> Result<Place, OutOfMemory>
        ensures place { IfOk result (λ place. place_of place ≡ place_on trail.now) }
        ensures stays { OnOk result (out_of self.new ≡ after (ground_of ground.now)
            (events.stays (place_on trail.now) (kind_of kind) ∷ []) (out_of self.old)) }
    {
        let next = self.nodes.len() as u64;
        let known = ground.side.nodes.index_near(trail, kind, next);
        let place = known_place(alloc, node_place(ground.side, known), trail)?;
        go_to(&mut self.nodes_to, known, next);
        self.nodes.push(NodeAt {
            place: place.copy(alloc)?,
            kind,
        })?;
        Ok(place)
    }

    /// A component stays, and its child is fed.
    pub(crate) fn feed(
        &mut self,
        alloc: Global,
        ground: &Ground<'_, P>,
        trail: &Trail<'_>,
        was: &VComponent<P>,
        component: &VComponent<P>,
    ) -> Result<(), OutOfMemory>
        ensures { OnOk result (out_of self.new ≡ after (ground_of ground.now)
            (events.fed (place_on trail.now) (component_of was.now) (component_of component.now)
            ∷ []) (out_of self.old)) }
    {
        let known = ground.side.seats.index_on(trail);
        let component = component.copy(alloc)?;
        let place = known_place(alloc, seat_place(ground.side, known), trail)?;
        go_to(&mut self.seats_to, known, self.seats.len() as u64);
        let place = add_seat(alloc, &mut self.seats, place)?;
        self.work.push(Item::Feed {
            scope: ground.scope,
            side: ground.name,
            place,
            component,
        })
    }

    /// A new component comes, and a child is made for it.
    pub(crate) fn make(
        &mut self,
        alloc: Global,
        ground: &Ground<'_, P>,
        trail: &Trail<'_>,
        component: &VComponent<P>,
    ) -> Result<(), OutOfMemory>
        ensures { OnOk result (out_of self.new ≡ after (ground_of ground.now)
            (events.made (place_on trail.now) (component_of component.now) ∷ [])
            (out_of self.old)) }
    {
        let component = component.copy(alloc)?;
        let place = add_seat(alloc, &mut self.seats, place_on(alloc, trail)?)?;
        self.work.push(Item::Make {
            scope: ground.scope,
            side: ground.name,
            place,
            component,
        })
    }

    /// An old component isn't kept, and its child is dropped.
    pub(crate) fn leave(
        &mut self,
        ground: &Ground<'_, P>,
        trail: &Trail<'_>,
        _component: &VComponent<P>,
    ) -> Result<(), OutOfMemory>
        ensures { OnOk result (out_of self.new ≡ after (ground_of ground.now)
            (events.left (place_on trail.now) (component_of _component.now) ∷ [])
            (out_of self.old)) }
    {
        match ground.side.child_on(trail) {
            Some(child) => self.drops.push(Item::Drop {
                child,
                scope: ground.scope,
                side: ground.name,
            }),
            None => Ok(()),
        }
    }
}

// The room for the new ones where there were so many: a long list that grows by a few grows without
// a move.
fn room_for(count: usize) -> usize {
    if count < FEW {
        0
    } else {
        count.saturating_add(FEW)
    }
}

// So many things that go nowhere.
fn nowhere(alloc: Global, count: usize) -> Result<List<Option<u64>>, OutOfMemory>
    ensures { IfOk result (λ to. to ≡ replicate count None) }
{
    let mut to = Vec::new(alloc);
    to.resize(count, None)?;
    Ok(List::from_vec(to))
}

// The new tree has one more component, at this place. It is shared with the list of them.
fn add_seat(alloc: Global, seats: &mut List<Place>, place: Place) -> Result<Place, OutOfMemory>
    ensures same { IfOk result (λ out. out ≡ place) }
    ensures more { OnOk result (seats.new ≡ seats.old ++ place ∷ []) }
{
    seats.push(place.copy(alloc)?)?;
    Ok(place)
}

// The thing at an index, if there is one, goes to another index.
fn go_to(to: &mut List<Option<u64>>, index: Option<u64>, next: u64)
    ensures { to.new ≡ goes_to to.old index next }
{
    if let Some(index) = index {
        if (index as usize) < to.len() {
            to.set(index as usize, Some(next));
        }
    }
}

// The place of the node that a side knows under an index.
fn node_place<P: Parts>(side: &Side<P>, index: Option<u64>) -> Option<&Place>
    ensures { option_copied result ≡ node_known side.now index }
{
    match index {
        Some(index) => side.nodes.place_of(index),
        None => None,
    }
}

// The place of the component that a side knows under an index.
fn seat_place<P: Parts>(side: &Side<P>, index: Option<u64>) -> Option<&Place>
    ensures { option_copied result ≡ seat_known side.now index }
{
    match index {
        Some(index) => side.seats.place_of(index),
        None => None,
    }
}

// The place where a walk stands, once more where it is known.
fn known_place(
    alloc: Global,
    known: Option<&Place>,
    trail: &Trail<'_>,
) -> Result<Place, OutOfMemory>
    ensures { IfOk result (λ place. place ≡ known_or (option_copied known.entry) (steps_of trail.now)) }
{
    match known {
        Some(place) => place.copy(alloc),
        None => place_on(alloc, trail),
    }
}
