//! A set of reactive contexts, for whoever keeps his own list of whom to tell.
ghost use Rattle.std.specs.Prelude.{◌≡◌, [], true, false, OnOk, OnErr};
ghost use Rattle.std.specs.List.Sorted.{IsStrictlySortedBy};
ghost use Rattle.rt_cells.specs.Orders.{context_cmp};
ghost use Rattle.rt_cells.specs.Subscribers.{joined, parted};

use crate::contexts::ReactiveContext;
use rt_values::OutOfMemory;
use std::alloc::Global;
use std::marker::Model;

/// Reactive contexts, each once and ascending.
#[derive(Debug, Drop)]
pub struct Subscribers {
    members: Vec<ReactiveContext>,
    listens: bool,
}

impl Model for Subscribers {
    ghost use Rattle.std.specs.List.Sorted.{IsStrictlySortedBy};
    ghost use Rattle.rt_cells.specs.Orders.{context_cmp};
    ghost use Rattle.rt_cells.specs.Subscribers.{Members};

    ghost Value = { Members };

    ghost view = { λ set. record { members = set.members.items; listens = set.listens } };

    ghost invariant = { λ set. IsStrictlySortedBy context_cmp set.members.items };
}

impl Subscribers {
    /// An empty set.
    pub fn new(alloc: Global) -> Subscribers
        ensures empty { result ≡ record { members = []; listens = true } }
    {
        Subscribers {
            members: Vec::new(alloc),
            listens: true,
        }
    }

    /// A set that stays empty, whatever is added.
    pub fn new_noop(alloc: Global) -> Subscribers
        ensures empty { result ≡ record { members = []; listens = false } }
    {
        Subscribers {
            members: Vec::new(alloc),
            listens: false,
        }
    }

    /// Adds a context. One that is there already changes nothing.
    pub fn add(&mut self, context: ReactiveContext) -> Result<(), OutOfMemory>
        ensures ok { OnOk result (self.new ≡ joined context self.old) }
        ensures err { OnErr result (self.new ≡ self.old) }
    {
        if !self.listens {
            return Ok(());
        }
        if let Err(at) = self.members.binary_search(&context) {
            self.members.insert(at, context)?;
        }
        Ok(())
    }

    /// Removes a context, where it is there.
    pub fn remove(&mut self, context: &ReactiveContext)
        ensures parted { self.new ≡ parted context.now self.old }
    {
        let context = *context;
        self.members.retain(|member| *member != context);
    }

    /// The contexts, ascending.
    pub fn visit(&self) -> &[ReactiveContext]
        ensures members { result.now ≡ self.now.members }
        ensures ascending { IsStrictlySortedBy context_cmp result.now }
    {
        self.members.as_slice()
    }
}
