//! What was read into reactive contexts, in order, which contracts alone read.
ghost use Rattle.std.specs.Prelude.{◌≡◌, ℕ, [], nat_eq, if◌then◌else◌};
ghost use Rattle.run_state.specs.Sources.{joined, joined_all, read_into};

use rt_cells::Source;
use std::marker::Model;
use std::snapshot::Snapshot;

/// What came to a reactive context.
#[derive(Clone, Copy)]
pub enum Reading {
    /// It has no source from then on.
    Begun(u64),
    /// It has one more source.
    Read(u64, Source),
}

/// What came to the reactive contexts. The cells keep the sources of each, in an order of their own;
/// the order of reading takes no memory.
#[derive(Drop)]
pub struct ReadOrder {
    last: Option<(Snapshot<ReadOrder>, Reading)>,
}

impl Model for ReadOrder {
    ghost use Rattle.std.specs.Prelude.{List, length};
    ghost use Rattle.run_owed.specs.Changes.{all_of};
    ghost use Rattle.run_state.specs.declared.read_order.Reading.{Reading};

    ghost Value = { List Reading };

    ghost view = { λ order. all_of order.last };

    ghost size = { length };

    ghost use Rattle.std.proofs.Common.{arith};

    ghost size_decreases = { λ order h. Prim.grind (arith) };
}

impl ReadOrder {
    /// Nothing came.
    pub(crate) fn new() -> ReadOrder
        ensures { result ≡ [] }
    {
        ReadOrder { last: None }
    }

    /// A context has no source from then on.
    pub(crate) fn begin(&mut self, context: u64)
        ensures { (number : ℕ) → read_into self.new number
            ≡ (if nat_eq context number then [] else read_into self.old number) }
    {
        let before = Snapshot::of(self);
        self.last = Some((before, Reading::Begun(context)));
    }

    /// A source is read into a context, where it is after the others, once.
    pub(crate) fn read(&mut self, context: u64, source: Source)
        ensures { (number : ℕ) → read_into self.new number
            ≡ (if nat_eq context number then joined (read_into self.old number) source
            else read_into self.old number) }
    {
        let before = Snapshot::of(self);
        self.last = Some((before, Reading::Read(context, source)));
    }

    /// Several sources are read into a context, one after another.
    fn read_all(&mut self, context: u64, sources: &[Source])
        ensures { (number : ℕ) → read_into self.new number
            ≡ (if nat_eq context number then joined_all (read_into self.old number) sources.now
            else read_into self.old number) }
    {
        for source in sources {
            self.read(context, *source);
        }
    }

    /// A context has just these sources from then on, in this order of reading, each once.
    pub(crate) fn anew(&mut self, context: u64, sources: &[Source])
        ensures { (number : ℕ) → read_into self.new number
            ≡ (if nat_eq context number then joined_all [] sources.now
            else read_into self.old number) }
    {
        self.begin(context);
        self.read_all(context, sources);
    }
}
