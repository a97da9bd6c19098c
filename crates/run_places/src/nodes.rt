//! The nodes of a tree, with their places.

ghost use Rattle.std.specs.Prelude.{◌≡◌, ◌≤◌, [], IfOk, length, map, true};
ghost use Rattle.std.specs.Option.{option_copied};
ghost use Rattle.run_places.specs.Apart.{Apart};
ghost use Rattle.run_places.specs.Keys.{Indexes};
ghost use Rattle.run_places.specs.Indexed.{IsFirstNodes, first_of_nodes, is_node_at, node_index, place_in};
ghost use Rattle.run_places.specs.Places.{kind_of, place_of};
ghost use Rattle.run_places.specs.PlaceKeys.{node_key};
ghost use Rattle.run_places.specs.Trails.{place_on};

use crate::keys::{is_index, is_rising, key_run, keys_of};
use crate::place::{Kind, Place, is_same_kind, is_same_place};
use crate::place_keys::{place_key, trail_key};
use crate::trail::{Trail, is_on};
use rt_values::{List, OutOfMemory, Shared};
use std::alloc::Global;
use std::cell::Cell;
use std::marker::Model;

/// So few nodes are gone through with no key.
const FEW: usize = 2;

/// So many nodes have no key.
const ALONE: usize = 1;

/// A node of a tree, by its place.
#[derive(Drop)]
pub struct NodeAt {
    pub place: Place,
    pub kind: Kind,
}

/// The nodes of a tree in its order, no two at one place. One is found by a key of its place.
#[derive(Drop)]
pub struct Nodes {
    items: Shared<NodeAt>,
    /// Keys with the indices of their nodes, ascending. One node alone has none.
    keys: Shared<(u64, u64)>,
    /// Where a walk most likely stands next. It is tested, and no clause says what it is.
    next: Cell<u64>,
}

impl Model for Nodes {
    ghost use Rattle.std.specs.Prelude.{List};
    ghost use Rattle.std.specs.Coded.{codes};
    ghost use Rattle.tree_nodes.specs.contracts.template.TemplateNode as node;
    ghost use Rattle.run_places.specs.Keys.{AreKeyed};
    ghost use Rattle.run_places.specs.Apart.{Apart};
    ghost use Rattle.run_places.specs.PlaceKeys.{node_key};
    ghost use Rattle.run_places.specs.declared.nodes.NodeAt.{NodeAt};

    ghost Value = { List NodeAt };

    ghost coded = { Prim.hlevel (codes, node.the_row.coded) };

    ghost view = { λ nodes. nodes.items };

    ghost invariant = { λ nodes. AreKeyed node_key nodes.keys nodes.items
        × Apart nodes.items };
}

impl Nodes {
    /// No node.
    pub fn empty() -> Nodes
        ensures empty { result ≡ [] }
    {
        Nodes {
            items: Shared::empty(),
            keys: Shared::empty(),
            next: Cell::new(0),
        }
    }

    /// These nodes. Two that stand at one place are answered as want of memory: no tree has such.
    pub fn from_list(alloc: Global, items: List<NodeAt>) -> Result<Nodes, OutOfMemory>
        ensures items { IfOk result (λ nodes. nodes ≡ items) }
    {
        if items.len() <= ALONE {
            Nodes::alone(alloc, items)
        } else {
            Nodes::keyed(alloc, items)
        }
    }

    // No node or one.
    fn alone(alloc: Global, items: List<NodeAt>) -> Result<Nodes, OutOfMemory>
        requires { length items ≤ 1 }
        ensures items { IfOk result (λ nodes. nodes ≡ items) }
    {
        Ok(Nodes {
            items: Shared::from_list(alloc, items)?,
            keys: Shared::empty(),
            next: Cell::new(0),
        })
    }

    // Any number of them, by their keys.
    fn keyed(alloc: Global, items: List<NodeAt>) -> Result<Nodes, OutOfMemory>
        ensures items { IfOk result (λ nodes. nodes ≡ items) }
    {
        let keys = keys_in(alloc, items.as_slice())?;
        let sorted = keys_of(alloc, keys.as_slice())?;
        if are_apart(items.as_slice(), sorted.as_slice()) {
            Ok(Nodes {
                items: Shared::from_list(alloc, items)?,
                keys: sorted,
                next: Cell::new(0),
            })
        } else {
            Err(OutOfMemory)
        }
    }

    /// The same nodes once more.
    pub fn share(&self) -> Result<Nodes, OutOfMemory>
        ensures items { IfOk result (λ nodes. nodes ≡ self.now) }
    {
        Ok(Nodes {
            items: self.items.share()?,
            keys: self.keys.share()?,
            next: Cell::new(0),
        })
    }

    /// The nodes in order.
    pub fn as_slice(&self) -> &[NodeAt]
        ensures items { result.now ≡ self.now }
        ensures apart { Apart self.now }
    {
        self.items.as_slice()
    }

    /// The place of the node at an index.
    pub fn place_of(&self, index: u64) -> Option<&Place>
        ensures { option_copied result ≡ place_in self.now index }
    {
        match self.items.get(index as usize) {
            Some(item) => Some(&item.place),
            None => None,
        }
    }

    /// The index of the node at a place. Where it is the guess no other one is looked at.
    pub fn index_at(&self, place: &Place, kind: Kind, guess: u64) -> Option<u64>
        ensures found { result ≡ node_index self.now (place_of place.now) (kind_of kind) }
        ensures apart { Apart self.now }
    {
        if is_at(self.items.as_slice(), guess as usize, place, kind) {
            return Some(guess);
        }
        self.found_at(place, kind)
    }

    // The index of the node at a place, by its key.
    fn found_at(&self, place: &Place, kind: Kind) -> Option<u64>
        ensures found { result ≡ node_index self.now (place_of place.now) (kind_of kind) }
        ensures apart { Apart self.now }
    {
        if self.items.len() <= ALONE {
            return alone_at(self.items.as_slice(), place, kind);
        }
        first_in(self.items.as_slice(), self.keys.as_slice(), place, kind)
    }

    /// The index of the node where a walk stands. Where it is the guess no other one is looked at.
    pub fn index_near(&self, trail: &Trail<'_>, kind: Kind, guess: u64) -> Option<u64>
        ensures found { result ≡ node_index self.now (place_on trail.now) (kind_of kind) }
        ensures apart { Apart self.now }
    {
        if stands_on(self.items.as_slice(), guess as usize, trail, kind) {
            return Some(guess);
        }
        self.found_on(trail, kind)
    }

    /// The index of the node where a walk stands. The one behind the node that was found last is looked
    /// at before the others.
    pub fn index_on(&self, trail: &Trail<'_>, kind: Kind) -> Option<u64>
        ensures found { result ≡ node_index self.now (place_on trail.now) (kind_of kind) }
        ensures apart { Apart self.now }
    {
        let found = self.index_near(trail, kind, self.next.get());
        self.next.set(behind(found));
        found
    }

    // The index of the node where a walk stands, by its key.
    fn found_on(&self, trail: &Trail<'_>, kind: Kind) -> Option<u64>
        ensures found { result ≡ node_index self.now (place_on trail.now) (kind_of kind) }
        ensures apart { Apart self.now }
    {
        if self.items.len() <= FEW {
            return first_among(self.items.as_slice(), trail, kind);
        }
        let run = key_run(self.keys.as_slice(), trail_key(trail, kind));
        first_on(self.items.as_slice(), run, trail, kind)
    }
}

// The index behind one that was found.
fn behind(found: Option<u64>) -> u64 {
    match found {
        Some(index) => index.saturating_add(1),
        None => 0,
    }
}

// The keys of these nodes.
fn keys_in(alloc: Global, items: &[NodeAt]) -> Result<Vec<u64>, OutOfMemory>
    ensures { IfOk result (λ keys. keys.items ≡ map node_key items.now) }
{
    let mut keys = Vec::with_capacity(alloc, items.len())?;
    for item in items {
        keys.push(place_key(&item.place, item.kind))?;
    }
    Ok(keys)
}

// Whether no two of these are the same. Where their keys differ they do.
fn are_apart(items: &[NodeAt], sorted: &[(u64, u64)]) -> bool
    requires { Indexes sorted.now (map node_key items.now) }
    ensures { result ≡ true → Apart items.now }
{
    is_rising(sorted) || each_first(items, sorted)
}

// Whether each is the first one at its place.
fn each_first(items: &[NodeAt], sorted: &[(u64, u64)]) -> bool
    requires { Indexes sorted.now (map node_key items.now) }
    ensures { result ≡ true → Apart items.now }
{
    for index in 0..items.len() {
        if !is_first(items, sorted, index) {
            return false;
        }
    }
    true
}

// Whether it is the first one at its place.
fn is_first(items: &[NodeAt], sorted: &[(u64, u64)], index: usize) -> bool
    requires { Indexes sorted.now (map node_key items.now) }
    ensures { result ≡ true → IsFirstNodes items.now index }
{
    match items.get(index) {
        Some(item) => is_index(first_in(items, sorted, &item.place, item.kind), index),
        None => false,
    }
}

// The index of the first node at a place.
fn first_in(items: &[NodeAt], sorted: &[(u64, u64)], place: &Place, kind: Kind) -> Option<u64>
    requires { Indexes sorted.now (map node_key items.now) }
    ensures { result ≡ node_index items.now (place_of place.now) (kind_of kind) }
{
    let run = key_run(sorted, place_key(place, kind));
    first_at(items, run, place, kind)
}

// The first of these indices at which the node of a place stands.
fn first_at(items: &[NodeAt], run: &[(u64, u64)], place: &Place, kind: Kind) -> Option<u64>
    ensures { result ≡ first_of_nodes items.now (place_of place.now) (kind_of kind) run.now }
{
    for entry in run {
        if is_at(items, entry.1 as usize, place, kind) {
            return Some(entry.1);
        }
    }
    None
}

// The index of the only node, where it is the one at a place.
fn alone_at(items: &[NodeAt], place: &Place, kind: Kind) -> Option<u64>
    requires { length items.now ≤ 1 }
    ensures { result ≡ node_index items.now (place_of place.now) (kind_of kind) }
{
    if is_at(items, 0, place, kind) {
        Some(0)
    } else {
        None
    }
}

// Whether the node at an index is the one at a place.
fn is_at(items: &[NodeAt], index: usize, place: &Place, kind: Kind) -> bool
    ensures { result ≡ is_node_at items.now (place_of place.now) (kind_of kind) index }
{
    match items.get(index) {
        Some(item) => is_same_kind(item.kind, kind) && is_same_place(&item.place, place),
        None => false,
    }
}

// The index of the first node that stands where a walk does, looked for one by one.
fn first_among(items: &[NodeAt], trail: &Trail<'_>, kind: Kind) -> Option<u64>
    ensures { result ≡ node_index items.now (place_on trail.now) (kind_of kind) }
{
    for index in 0..items.len() {
        if stands_on(items, index, trail, kind) {
            return Some(index as u64);
        }
    }
    None
}

// The first of these indices at which the node stands where a walk does.
fn first_on(items: &[NodeAt], run: &[(u64, u64)], trail: &Trail<'_>, kind: Kind) -> Option<u64>
    ensures { result ≡ first_of_nodes items.now (place_on trail.now) (kind_of kind) run.now }
{
    for entry in run {
        if stands_on(items, entry.1 as usize, trail, kind) {
            return Some(entry.1);
        }
    }
    None
}

// Whether the node at an index is the one where a walk stands.
fn stands_on(items: &[NodeAt], index: usize, trail: &Trail<'_>, kind: Kind) -> bool
    ensures { result ≡ is_node_at items.now (place_on trail.now) (kind_of kind) index }
{
    match items.get(index) {
        Some(item) => is_same_kind(item.kind, kind) && is_on(&item.place, trail),
        None => false,
    }
}
