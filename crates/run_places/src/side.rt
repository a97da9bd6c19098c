//! What a scope keeps of one of its trees.

ghost use Rattle.std.specs.Prelude.{◌≡◌, [], true, IfOk, OnErr, OnOk};
ghost use Rattle.rt_model.specs.Lists.{or_else};
ghost use Rattle.run_places.specs.Known.{KnowsTree};

use crate::drawn::Drawn;
use crate::nodes::Nodes;
use crate::place::{Kind, Place};
use crate::seats::Seats;
use crate::trail::Trail;
use rt_values::OutOfMemory;
use std::alloc::Global;
use tree_nodes::{Parts, VNode};

/// A suspense boundary has the sides of its children and of its fallback, any other scope has one.
#[derive(Clone, Copy, Debug, PartialEq, Eq)]
pub enum SideName {
    Main,
    Children,
    Fallback,
}

/// What a scope keeps of one side.
#[derive(Drop)]
pub struct Side<P: Parts> {
    /// The tree that was rendered last, if any was.
    pub output: Option<VNode<P>>,
    /// Its nodes, and the places of its components.
    pub nodes: Nodes,
    pub seats: Seats,
    /// The numbers of its nodes in the document.
    pub numbers: Drawn,
    /// The child scopes of its components.
    pub children: Drawn,
    /// The nodes and the components are those of the tree.
    pub ghost known: { KnowsTree output nodes seats },
}

impl<P: Parts> Side<P> {
    ghost use Rattle.rt_model.specs.State.{empty_side};
    ghost use Rattle.run_places.specs.Places.{kind_of, place_of, side_of};
    ghost use Rattle.run_places.specs.Indexed.{node_index, seat_index};
    ghost use Rattle.run_places.specs.Sides.{IsBare, and_child, and_number, child_in, joined_under, number_in};
    ghost use Rattle.run_places.specs.Trails.{place_on};

    /// A side on which nothing was ever rendered.
    pub fn empty(alloc: Global) -> Side<P>
        ensures none { side_of result ≡ empty_side }
        ensures bare { IsBare result }
    {
        Side {
            output: None,
            nodes: Nodes::empty(),
            seats: Seats::empty(),
            numbers: Drawn::new(alloc),
            children: Drawn::new(alloc),
        }
    }

    /// The same side once more: its tree is copied, all else is shared. Of a side on which nothing
    /// was ever rendered an empty one is made.
    pub fn copy(&self, alloc: Global) -> Result<Side<P>, OutOfMemory>
        ensures { IfOk result (λ copy. copy ≡ self.now) }
    {
        if self.is_bare() {
            return Ok(Side::empty(alloc));
        }
        let output = copy_output(alloc, &self.output)?;
        let nodes = self.nodes.share()?;
        let seats = self.seats.share()?;
        let numbers = self.numbers.copy(alloc)?;
        let children = self.children.copy(alloc)?;
        let side = Side {
            output,
            nodes,
            seats,
            numbers,
            children,
        };
        Ok(side)
    }

    /// Whether nothing was ever rendered on a side.
    fn is_bare(&self) -> bool
        ensures { result ≡ true → IsBare self.now }
    {
        match &self.output {
            Some(_) => false,
            None => self.has_nothing(),
        }
    }

    /// Whether a side knows no place, and nothing stands on it.
    fn has_nothing(&self) -> bool
        ensures nodes { result ≡ true → self.now.nodes ≡ [] }
        ensures seats { result ≡ true → self.now.seats ≡ [] }
        ensures numbers { result ≡ true → self.now.numbers ≡ [] }
        ensures children { result ≡ true → self.now.children ≡ [] }
    {
        if !none_of(self.nodes.as_slice()) {
            return false;
        }
        if !none_of(self.seats.as_slice()) {
            return false;
        }
        if !none_of(self.numbers.as_slice()) {
            return false;
        }
        none_of(self.children.as_slice())
    }

    /// The number of the node where a walk stands, 0 where it has none.
    pub fn number_on(&self, trail: &Trail<'_>, kind: Kind) -> u64
        ensures { result ≡ number_in self.now (place_on trail.now) (kind_of kind) }
    {
        match self.nodes.index_on(trail, kind) {
            Some(index) => or_none(self.numbers.get(index)),
            None => 0,
        }
    }

    /// The child scope of the component where a walk stands.
    pub fn child_on(&self, trail: &Trail<'_>) -> Option<u64>
        ensures { result ≡ child_in self.now (place_on trail.now) }
    {
        match self.seats.index_on(trail) {
            Some(index) => self.children.get(index),
            None => None,
        }
    }

    /// The child scope of the component at a place.
    pub fn child_at(&self, place: &Place) -> Option<u64>
        ensures { result ≡ child_in self.now (place_of place.now) }
    {
        match self.seats.index_at(place) {
            Some(index) => self.children.get(index),
            None => None,
        }
    }

    /// A number is drawn for the node at a place: most often for the first that has none. A place
    /// without a node of this kind is answered as want of memory. A refusal leaves the side as it
    /// was.
    pub fn draw(&mut self, place: &Place, kind: Kind, number: u64) -> Result<(), OutOfMemory>
        ensures drawn { OnOk result (side_of self.new
            ≡ and_number (side_of self.old) (place_of place.now, kind_of kind, number)) }
        ensures others { OnOk result (self.new ≡ record self.old {
          numbers = joined_under (node_index self.old.nodes (place_of place.now) (kind_of kind)) number
              self.old.numbers;
        }) }
        ensures err { OnErr result (self.new ≡ self.old) }
    {
        let next = self.numbers.as_slice().len() as u64;
        match self.nodes.index_at(place, kind, next) {
            Some(index) => self.numbers.push(index, number),
            None => Err(OutOfMemory),
        }
    }

    /// A child scope is made for the component at a place. A place without a component is answered
    /// as want of memory. A refusal leaves the side as it was.
    pub fn seat(&mut self, place: &Place, child: u64) -> Result<(), OutOfMemory>
        ensures seated { OnOk result (side_of self.new
            ≡ and_child (side_of self.old) (place_of place.now, child)) }
        ensures others { OnOk result (self.new ≡ record self.old {
          children = joined_under (seat_index self.old.seats (place_of place.now)) child
              self.old.children;
        }) }
        ensures err { OnErr result (self.new ≡ self.old) }
    {
        match self.seats.index_at(place) {
            Some(index) => self.children.push(index, child),
            None => Err(OutOfMemory),
        }
    }
}

// A tree once more, if there is one.
fn copy_output<P: Parts>(
    alloc: Global,
    output: &Option<VNode<P>>,
) -> Result<Option<VNode<P>>, OutOfMemory>
    ensures { IfOk result (λ copy. copy ≡ output.now) }
{
    match output {
        Some(tree) => Ok(Some(tree.copy(alloc)?)),
        None => Ok(None),
    }
}

// Whether there is none.
fn none_of<T>(items: &[T]) -> bool
    ensures { result ≡ true → items.now ≡ [] }
{
    match items {
        [] => true,
        _ => false,
    }
}

// A number, 0 for none.
fn or_none(number: Option<u64>) -> u64
    ensures { result ≡ or_else 0 number }
{
    match number {
        Some(number) => number,
        None => 0,
    }
}
