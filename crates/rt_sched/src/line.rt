//! A line in which members wait by order, and in one order by arrival. A member's node is made when
//! it is entered and goes between its seat and the tree, so that no mark and no look takes memory.
ghost use Rattle.std.specs.Prelude.{◌≡◌, ◌∷◌, [], ◌^◌, ◌-◌, ◌<◌, ◌↔◌, IsTrue, IfSome, IfNone, OnOk, OnErr, Some, is_some, if◌then◌else◌, ◌==◌, None, not, false, MatchOption};
ghost use Rattle.rt_sched.specs.Places.{IsInOrder};
ghost use Rattle.rt_sched.specs.Seats.{members_of};
ghost use Rattle.rt_sched.specs.Lines.{Row, IsLine, standing, StandsAt, has_number, Joins, Leaves, waits, with_waiting, without_waiting, order_in, orders_of, first_in, first_under, first_order, behind, who_waits};
ghost use Rattle.rt_sched.specs.Rosters.{all_waiting};
ghost use Rattle.rt_sched.specs.Due.{NoneEarlier};

use crate::order::ScopeOrder;
use crate::place::Place;
use crate::seating::{Seat, Seating};
use crate::tree::{Node, Tree};
use rt_values::OutOfMemory;
use std::alloc::Global;
use std::marker::Model;
use std::mem;

/// Members by number, and those that wait.
#[derive(Drop)]
pub struct Line {
    seats: Seating,
    tree: Tree,
    arrivals: u64,
}

impl Model for Line {
    ghost use Rattle.rt_sched.specs.Lines.{Row};

    ghost Value = { Row };

    ghost use Rattle.rt_sched.specs.Seats.{members_of};
    ghost use Rattle.rt_sched.specs.Lines.{IsLine, standing, who_waits};

    ghost view = { λ line. record { members = members_of line.seats; waiting = who_waits line.tree } };

    ghost invariant = { λ line. IsLine (standing line.seats) line.tree line.arrivals };
}

impl Line {
    pub fn new(alloc: Global) -> Line
        ensures empty { result ≡ record { members = []; waiting = [] } }
    {
        Line {
            seats: Seating::new(alloc),
            tree: Tree::new(),
            arrivals: 0,
        }
    }

    /// Enters a member, who doesn't wait yet. One who is entered stays as it is.
    pub fn enter(&mut self, alloc: Global, number: u64) -> Result<(), OutOfMemory>
        ensures entered { OnOk result (Joins number self.old.members self.new.members) }
        ensures waiting { self.new.waiting ≡ self.old.waiting }
        ensures err { OnErr result (self.new ≡ self.old) }
    {
        if self.seats.has(number) {
            return Ok(());
        }
        let node = Box::new(alloc, Node::vacant(number))?;
        self.seats.insert(number, Seat::Home(node))?;
        Ok(())
    }

    /// Takes a member out of the line and off the members.
    pub fn forget(&mut self, number: u64)
        ensures left { Leaves number self.old.members self.new.members }
        ensures waiting { self.new.waiting ≡ without_waiting number self.old.waiting }
    {
        if let Some(place) = take_seat(&mut self.seats, number) {
            let (_node, others) = mem::replace(&mut self.tree, Tree::new()).remove(&place);
            self.tree = others;
        }
    }

    /// Lets a member wait, the last of its order. One who waits stays where it is.
    pub fn push(&mut self, number: u64, order: ScopeOrder)
        requires member { IsTrue (has_number number self.old.members) }
        ensures waits { self.new
            ≡ record self.old { waiting = with_waiting order number self.old.waiting } }
    {
        self.arrivals = next_arrival(&mut self.seats, &mut self.tree, self.arrivals);
        let place = Place {
            order,
            arrival: self.arrivals,
            number,
        };
        if let Some(mut node) = leave_home(&mut self.seats, place) {
            node.place = place;
            self.tree = mem::replace(&mut self.tree, Tree::new()).insert(node);
            self.arrivals += 1;
        }
    }

    /// Lets a member wait no longer.
    pub fn remove(&mut self, number: u64)
        ensures gone { self.new
            ≡ record self.old { waiting = without_waiting number self.old.waiting } }
    {
        if let Some(place) = place_at(&self.seats, number) {
            let (found, others) = mem::replace(&mut self.tree, Tree::new()).remove(&place);
            self.tree = others;
            if let Some(node) = found {
                bring_home(&mut self.seats, node);
            }
        }
    }

    /// Takes the first that waits out of the line, with its order.
    pub fn pop_first(&mut self) -> Option<(ScopeOrder, u64)>
        ensures members { self.new.members ≡ self.old.members }
        ensures first { MatchOption result ((self.old.waiting ≡ []) × (self.new.waiting ≡ []))
            (λ first. self.old.waiting ≡ first ∷ self.new.waiting) }
        ensures least { IfSome result
            (λ first. NoneEarlier first.0 (orders_of self.old.waiting)) }
        ensures member { IfSome result (λ first. IsTrue (has_number first.1 self.new.members)) }
        ensures once { IfSome result (λ first. waits first.1 self.new.waiting ≡ false) }
    {
        let (node, others) = mem::replace(&mut self.tree, Tree::new()).take_first()?;
        let place = node.place;
        self.tree = others;
        bring_home(&mut self.seats, node);
        Some((place.order, place.number))
    }

    /// The order of the first that waits.
    pub fn first_order(&self) -> Option<ScopeOrder>
        ensures first { result ≡ first_order self.now.waiting }
        ensures least { IfSome result (λ order. NoneEarlier order (orders_of self.now.waiting)) }
    {
        Some(self.tree.first()?.order)
    }

    /// The first that waits, with its order.
    pub fn first(&self) -> Option<(ScopeOrder, u64)>
        ensures first { result ≡ first_in self.now.waiting }
    {
        let place = self.tree.first()?;
        Some((place.order, place.number))
    }

    /// The first that waits behind a number, with its order. `None` where the number doesn't wait.
    pub fn first_behind(&self, number: u64) -> Option<(ScopeOrder, u64)>
        ensures first { result ≡ first_in (behind number self.now.waiting) }
    {
        let own = place_at(&self.seats, number)?;
        let place = self.tree.first_after(&own)?;
        Some((place.order, place.number))
    }

    /// Whether a number waits.
    pub fn has(&self, number: u64) -> bool
        ensures waiting { result ≡ waits number self.now.waiting }
    {
        place_at(&self.seats, number).is_some()
    }

    /// The first that waits under an order.
    pub fn first_under(&self, order: &ScopeOrder) -> Option<u64>
        ensures first { result ≡ first_under order.now self.now.waiting }
    {
        Some(self.tree.first_under(order)?.number)
    }

    /// The order under which a number waits, if it does.
    pub fn order_of(&self, number: u64) -> Option<ScopeOrder>
        ensures order { result ≡ order_in number self.now.waiting }
    {
        Some(place_at(&self.seats, number)?.order)
    }

    /// Those that wait come to an empty line, one after another, as they stand here.
    #[inline(always)]
    pub fn comes_so(&self)
        ensures so { all_waiting self.now.waiting [] ≡ self.now.waiting }
    {
        let _tree = &self.tree;
    }

    /// Whether no one waits.
    pub fn is_empty(&self) -> bool
        ensures empty { IsTrue result ↔ (self.now.waiting ≡ []) }
    {
        self.tree.is_empty()
    }
}

// The next arrival, with room for one after it: where the numbers end, all are counted anew.
fn next_arrival(seats: &mut Seating, tree: &mut Tree, arrivals: u64) -> u64
    requires line { IsLine (standing seats.old) tree.old arrivals }
    ensures members { members_of seats.new ≡ members_of seats.old }
    ensures waiting { who_waits tree.new ≡ who_waits tree.old }
    ensures line { IsLine (standing seats.new) tree.new result }
    ensures room { result < 2 ^ 64 - 1 }
{
    if arrivals < u64::MAX {
        return arrivals;
    }
    renumber(seats, tree)
}

// Counts the arrivals from 0 again, first to last, and gives a number above them.
fn renumber(seats: &mut Seating, tree: &mut Tree) -> u64
    requires line { IsLine (standing seats.old) tree.old (2 ^ 64 - 1) }
    ensures members { members_of seats.new ≡ members_of seats.old }
    ensures waiting { who_waits tree.new ≡ who_waits tree.old }
    ensures line { IsLine (standing seats.new) tree.new result }
    ensures room { result < 2 ^ 64 - 1 }
{
    let members = seats.room();
    let mut done = Tree::new();
    for arrival in 0..members {
        let Some((mut node, others)) = mem::replace(tree, Tree::new()).take_first() else {
            break;
        };
        *tree = others;
        let place = Place {
            arrival,
            ..node.place
        };
        node.place = place;
        stand_at(seats, place);
        done = done.insert(node);
    }
    *tree = done;
    members
}

// Names another place in the seat of a member who stands in line.
fn stand_at(seats: &mut Seating, place: Place)
    ensures members { members_of seats.new ≡ members_of seats.old }
    ensures stands { IsTrue (has_number place.number (members_of seats.old))
        → StandsAt place.number (Some place) (standing seats.old) (standing seats.new) }
{
    let _former = seats.exchange(place.number, Seat::InLine(place));
}

// The place where a number stands in line.
fn place_at(seats: &Seating, number: u64) -> Option<Place>
    ensures place { result ≡ standing seats.now number }
{
    match seats.get(number) {
        Some(Seat::InLine(place)) => Some(*place),
        _ => None,
    }
}

// Takes a member's seat off, and gives the place where it stood in line.
fn take_seat(seats: &mut Seating, number: u64) -> Option<Place>
    ensures place { result ≡ standing seats.old number }
    ensures left { Leaves number (members_of seats.old) (members_of seats.new) }
    ensures stands { StandsAt number None (standing seats.old) (standing seats.new) }
{
    match seats.remove(number) {
        Some(Seat::InLine(place)) => Some(place),
        _ => None,
    }
}

// Sends the member of a place there from home, and gives its node. `None` where no such member is
// at home.
fn leave_home(seats: &mut Seating, place: Place) -> Option<Box<Node>>
    ensures members { members_of seats.new ≡ members_of seats.old }
    ensures stays { IfNone result ((q : _) → standing seats.new q ≡ standing seats.old q) }
    ensures was_home { IsTrue (has_number place.number (members_of seats.old))
        → is_some result ≡ not (is_some (standing seats.old place.number)) }
    ensures stands { IfSome result
        (λ _. StandsAt place.number (Some place) (standing seats.old) (standing seats.new)) }
{
    match seats.exchange(place.number, Seat::InLine(place))? {
        Seat::Home(node) => Some(node),
        Seat::InLine(former) => {
            let _there = seats.exchange(place.number, Seat::InLine(former));
            None
        }
    }
}

// Sends a node to its member, who is then at home.
fn bring_home(seats: &mut Seating, node: Box<Node>)
    ensures members { members_of seats.new ≡ members_of seats.old }
    ensures home { StandsAt node.value.place.number None (standing seats.old) (standing seats.new) }
{
    let number = node.place.number;
    let _former = seats.exchange(number, Seat::Home(node));
}
