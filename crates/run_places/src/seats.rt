//! The components of a tree, by their places.

ghost use Rattle.std.specs.Prelude.{◌≡◌, ◌≤◌, [], IfOk, length, map, slice_get, true};
ghost use Rattle.std.specs.Option.{option_copied};
ghost use Rattle.run_places.specs.Apart.{Apart};
ghost use Rattle.run_places.specs.Keys.{Indexes};
ghost use Rattle.run_places.specs.Indexed.{IsFirstSeats, first_of_seats, is_seat_at, seat_index};
ghost use Rattle.run_places.specs.Places.{place_of};
ghost use Rattle.run_places.specs.PlaceKeys.{seat_key};
ghost use Rattle.run_places.specs.Trails.{place_on};

use crate::keys::{is_index, is_rising, key_run, keys_of};
use crate::place::{Place, is_same_place};
use crate::place_keys::{SEAT, key_from, steps_key_on};
use crate::trail::{Trail, is_on, item_of, item_on};
use rt_values::{List, OutOfMemory, Shared};
use std::alloc::Global;
use std::marker::Model;

/// So many places have no key.
const ALONE: usize = 1;

/// The places of a tree's components in its order, no two the same. One is found by a key.
#[derive(Drop)]
pub struct Seats {
    items: Shared<Place>,
    /// Keys with the indices of their places, ascending. One place alone has none.
    keys: Shared<(u64, u64)>,
}

impl Model for Seats {
    ghost use Rattle.std.specs.Prelude.{List};
    ghost use Rattle.std.specs.Coded.{codes};
    ghost use Rattle.tree_nodes.specs.contracts.template.TemplateNode as node;
    ghost use Rattle.run_places.specs.Keys.{AreKeyed};
    ghost use Rattle.run_places.specs.Apart.{Apart};
    ghost use Rattle.run_places.specs.PlaceKeys.{seat_key};
    ghost use Rattle.run_places.specs.declared.place.Step.{Step};

    ghost Value = { List (List Step) };

    ghost coded = { Prim.hlevel (codes, node.the_row.coded) };

    ghost view = { λ seats. seats.items };

    ghost invariant = { λ seats. AreKeyed seat_key seats.keys seats.items
        × Apart seats.items };
}

impl Seats {
    /// No component.
    pub fn empty() -> Seats
        ensures empty { result ≡ [] }
    {
        Seats {
            items: Shared::empty(),
            keys: Shared::empty(),
        }
    }

    /// Components at these places. Two that are the same are answered as want of memory: no tree has
    /// such.
    pub fn from_list(alloc: Global, items: List<Place>) -> Result<Seats, OutOfMemory>
        ensures items { IfOk result (λ seats. seats ≡ items) }
    {
        if items.len() <= ALONE {
            Seats::alone(alloc, items)
        } else {
            Seats::keyed(alloc, items)
        }
    }

    // No component or one.
    fn alone(alloc: Global, items: List<Place>) -> Result<Seats, OutOfMemory>
        requires { length items ≤ 1 }
        ensures items { IfOk result (λ seats. seats ≡ items) }
    {
        Ok(Seats {
            items: Shared::from_list(alloc, items)?,
            keys: Shared::empty(),
        })
    }

    // Any number of them, by their keys.
    fn keyed(alloc: Global, items: List<Place>) -> Result<Seats, OutOfMemory>
        ensures items { IfOk result (λ seats. seats ≡ items) }
    {
        let keys = keys_in(alloc, items.as_slice())?;
        let sorted = keys_of(alloc, keys.as_slice())?;
        if are_apart(items.as_slice(), sorted.as_slice()) {
            Ok(Seats {
                items: Shared::from_list(alloc, items)?,
                keys: sorted,
            })
        } else {
            Err(OutOfMemory)
        }
    }

    /// The same places once more.
    pub fn share(&self) -> Result<Seats, OutOfMemory>
        ensures items { IfOk result (λ seats. seats ≡ self.now) }
    {
        Ok(Seats {
            items: self.items.share()?,
            keys: self.keys.share()?,
        })
    }

    /// The places in order.
    pub fn as_slice(&self) -> &[Place]
        ensures items { result.now ≡ self.now }
        ensures apart { Apart self.now }
    {
        self.items.as_slice()
    }

    /// The place at an index.
    pub fn place_of(&self, index: u64) -> Option<&Place>
        ensures { option_copied result ≡ slice_get self.now index }
    {
        self.items.get(index as usize)
    }

    /// The index of the component at a place. In most trees it is the position of the item in which
    /// the component stands; there no other one is looked at.
    pub fn index_at(&self, place: &Place) -> Option<u64>
        ensures found { result ≡ seat_index self.now (place_of place.now) }
        ensures apart { Apart self.now }
    {
        let guess = item_of(place);
        if is_at(self.items.as_slice(), guess as usize, place) {
            return Some(guess);
        }
        self.found_at(place)
    }

    // The index of the component at a place, by its key.
    fn found_at(&self, place: &Place) -> Option<u64>
        ensures found { result ≡ seat_index self.now (place_of place.now) }
        ensures apart { Apart self.now }
    {
        if self.items.len() <= ALONE {
            return alone_at(self.items.as_slice(), place);
        }
        first_in(self.items.as_slice(), self.keys.as_slice(), place)
    }

    /// The index of the component where a walk stands. In most trees it is the position of the item
    /// in which the component stands; there no other one is looked at.
    pub fn index_on(&self, trail: &Trail<'_>) -> Option<u64>
        ensures found { result ≡ seat_index self.now (place_on trail.now) }
        ensures apart { Apart self.now }
    {
        let guess = item_on(trail);
        if stands_on(self.items.as_slice(), guess as usize, trail) {
            return Some(guess);
        }
        self.found_on(trail)
    }

    // The index of the component where a walk stands, by its key.
    fn found_on(&self, trail: &Trail<'_>) -> Option<u64>
        ensures found { result ≡ seat_index self.now (place_on trail.now) }
        ensures apart { Apart self.now }
    {
        if self.items.len() <= ALONE {
            return alone_on(self.items.as_slice(), trail);
        }
        let run = key_run(self.keys.as_slice(), steps_key_on(trail, SEAT));
        first_on(self.items.as_slice(), run, trail)
    }
}

// The keys of these places.
fn keys_in(alloc: Global, items: &[Place]) -> Result<Vec<u64>, OutOfMemory>
    ensures { IfOk result (λ keys. keys.items ≡ map seat_key items.now) }
{
    let mut keys = Vec::with_capacity(alloc, items.len())?;
    for item in items {
        keys.push(key_from(item, SEAT))?;
    }
    Ok(keys)
}

// Whether no two of these are the same. Where their keys differ they do.
fn are_apart(items: &[Place], sorted: &[(u64, u64)]) -> bool
    requires { Indexes sorted.now (map seat_key items.now) }
    ensures { result ≡ true → Apart items.now }
{
    is_rising(sorted) || each_first(items, sorted)
}

// Whether each is the first one at its place.
fn each_first(items: &[Place], sorted: &[(u64, u64)]) -> bool
    requires { Indexes sorted.now (map seat_key items.now) }
    ensures { result ≡ true → Apart items.now }
{
    for index in 0..items.len() {
        if !is_first(items, sorted, index) {
            return false;
        }
    }
    true
}

// Whether it is the first one at its place.
fn is_first(items: &[Place], sorted: &[(u64, u64)], index: usize) -> bool
    requires { Indexes sorted.now (map seat_key items.now) }
    ensures { result ≡ true → IsFirstSeats items.now index }
{
    match items.get(index) {
        Some(item) => is_index(first_in(items, sorted, item), index),
        None => false,
    }
}

// The index of the first component at a place.
fn first_in(items: &[Place], sorted: &[(u64, u64)], place: &Place) -> Option<u64>
    requires { Indexes sorted.now (map seat_key items.now) }
    ensures { result ≡ seat_index items.now (place_of place.now) }
{
    let run = key_run(sorted, key_from(place, SEAT));
    first_at(items, run, place)
}

// The first of these indices at which a place stands.
fn first_at(items: &[Place], run: &[(u64, u64)], place: &Place) -> Option<u64>
    ensures { result ≡ first_of_seats items.now (place_of place.now) run.now }
{
    for entry in run {
        if is_at(items, entry.1 as usize, place) {
            return Some(entry.1);
        }
    }
    None
}

// The index of the only component, where it is at a place.
fn alone_at(items: &[Place], place: &Place) -> Option<u64>
    requires { length items.now ≤ 1 }
    ensures { result ≡ seat_index items.now (place_of place.now) }
{
    if is_at(items, 0, place) {
        Some(0)
    } else {
        None
    }
}

// The index of the only component, where a walk stands at it.
fn alone_on(items: &[Place], trail: &Trail<'_>) -> Option<u64>
    requires { length items.now ≤ 1 }
    ensures { result ≡ seat_index items.now (place_on trail.now) }
{
    if stands_on(items, 0, trail) {
        Some(0)
    } else {
        None
    }
}

// Whether a place stands at an index.
fn is_at(items: &[Place], index: usize, place: &Place) -> bool
    ensures { result ≡ is_seat_at items.now (place_of place.now) index }
{
    match items.get(index) {
        Some(item) => is_same_place(item, place),
        None => false,
    }
}

// The first of these indices at which the place stands where a walk does.
fn first_on(items: &[Place], run: &[(u64, u64)], trail: &Trail<'_>) -> Option<u64>
    ensures { result ≡ first_of_seats items.now (place_on trail.now) run.now }
{
    for entry in run {
        if stands_on(items, entry.1 as usize, trail) {
            return Some(entry.1);
        }
    }
    None
}

// Whether the place at an index is where a walk stands.
fn stands_on(items: &[Place], index: usize, trail: &Trail<'_>) -> bool
    ensures { result ≡ is_seat_at items.now (place_on trail.now) index }
{
    match items.get(index) {
        Some(item) => is_on(item, trail),
        None => false,
    }
}
