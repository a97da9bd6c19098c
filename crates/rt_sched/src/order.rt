//! The order of work: nearer to the root first, and then the lower number.
ghost use Rattle.std.specs.Prelude.{◌≡◌};
ghost use Rattle.std.specs.Ordering.{is_lt};
ghost use Rattle.rt_sched.specs.Order.{order_before};

use rt_values::ScopeId;

/// A scope's height above the root, and then its number.
#[derive(Clone, Copy, Debug, PartialEq, Eq, PartialOrd, Ord, Hash)]
pub struct ScopeOrder {
    height: u32,
    id: ScopeId,
}

impl ScopeOrder {
    pub fn new(height: u32, id: ScopeId) -> ScopeOrder
        ensures height { result.height ≡ height }
        ensures id { result.id ≡ id }
    {
        ScopeOrder { height, id }
    }

    pub fn height(&self) -> u32
        ensures height { result ≡ self.now.height }
    {
        self.height
    }

    pub fn id(&self) -> ScopeId
        ensures id { result ≡ self.now.id }
    {
        self.id
    }

    /// Whether work of this order comes first.
    pub fn is_before(&self, other: &ScopeOrder) -> bool
        ensures before { result ≡ order_before self.now other.now }
        // as the derived order says it
        ensures less { result ≡ is_lt (⟦<ScopeOrder as Ord>⟧.cmp self.now other.now) }
    {
        self.height < other.height || (self.height == other.height && self.id.0 < other.id.0)
    }
}
