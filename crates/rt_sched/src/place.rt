//! A place in a line.
ghost use Rattle.std.specs.Prelude.{◌≡◌};
ghost use Rattle.rt_sched.specs.Places.{place_before, same_place};

use crate::order::ScopeOrder;

/// Where a member stands in a line: by order, and in one order by arrival.
#[derive(Clone, Copy, Debug)]
pub struct Place {
    pub order: ScopeOrder,
    pub arrival: u64,
    pub number: u64,
}

impl Place {
    /// Whether this place comes first.
    pub fn is_before(&self, other: &Place) -> bool
        ensures before { result ≡ place_before self.now other.now }
    {
        self.order.is_before(&other.order)
            || (self.order == other.order
                && (self.arrival < other.arrival
                    || (self.arrival == other.arrival && self.number < other.number)))
    }

    /// Whether it is the same place.
    pub fn is_same(&self, other: &Place) -> bool
        ensures same { result ≡ same_place self.now other.now }
    {
        self.order == other.order && self.arrival == other.arrival && self.number == other.number
    }
}
