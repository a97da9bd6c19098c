//! What came to what is owed, which contracts alone read.
ghost use Rattle.std.specs.Prelude.{◌≡◌, ◌∷◌, []};

use std::marker::Model;
use std::snapshot::Snapshot;

/// One change of what is owed.
#[derive(Clone, Copy)]
pub(crate) enum Event {
    /// A scope was entered with its height.
    EnteredScope(u64, u64),
    LeftScope(u64),
    /// A task was entered with its scope.
    EnteredTask(u64, u64),
    /// A task left, and what is owed of it went.
    EndedTask(u64),
    Marked(u64),
    Woken(u64),
    /// A scope's marks went, posted or seen.
    Unmarked(u64),
    /// A task's wakes went, posted or queued.
    Unwoken(u64),
    Seen(u64),
    Unseen(u64),
    Unqueued(u64),
    /// All that was posted became seen or queued.
    Looked,
}

/// The changes, one after another. What a contract reads of them takes no memory.
#[derive(Drop)]
pub(crate) struct Told {
    last: Option<(Snapshot<Told>, Event)>,
}

impl Model for Told {
    ghost use Rattle.std.specs.Prelude.{List, length};
    ghost use Rattle.run_owed.specs.declared.told.Event.{Event};

    ghost Value = { List Event };

    ghost use Rattle.run_owed.specs.Changes.{all_of};

    ghost view = { λ told. all_of told.last };

    ghost size = { length };

    ghost use Rattle.std.proofs.Common.{arith};

    ghost size_decreases = { λ told h. Prim.grind (arith) };
}

impl Told {
    /// Nothing came.
    pub(crate) fn new() -> Told
        ensures { result ≡ [] }
    {
        Told { last: None }
    }

    /// One more change came.
    pub(crate) fn tell(&mut self, event: Event)
        ensures { self.new ≡ event ∷ self.old }
    {
        let before = Snapshot::of(self);
        self.last = Some((before, event));
    }
}
