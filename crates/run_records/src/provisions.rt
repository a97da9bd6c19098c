//! What a scope provides, by kind: each is found by halves, however many there are.
ghost use Rattle.std.specs.Prelude.{◌≡◌, [], slice_get, option_map, OnOk, OnErr};
ghost use Rattle.std.specs.Option.{option_copied};
ghost use Rattle.run_records.specs.World.{provided};
ghost use Rattle.run_records.specs.Provisions.{kind_place, put_provided};

use crate::rows::Provided;
use rt_values::{List, OutOfMemory};
use std::alloc::Global;
use std::collections::BTreeMap;
use std::marker::Model;
use tree_nodes::Parts;

/// A value of each kind that a scope provides, in the order in which the kinds came.
#[derive(Drop)]
pub struct Provisions<P: Parts> {
    all: List<Provided<P>>,
    /// Where each kind stands among them.
    places: BTreeMap<u32, usize>,
}

impl<P: Parts> Model for Provisions<P> {
    ghost use Rattle.std.specs.Prelude.{◌≡◌, List, ℕ};
    ghost use Rattle.std.specs.Ordering.{nat_cmp};
    ghost use Rattle.std.specs.BTreeMap.{get};
    ghost use Rattle.run_records.specs.declared.rows.Provided.{Provided as Provision};
    ghost use Rattle.run_records.specs.Provisions.{kind_place};

    ghost Value = { List
        (Provision P P.Component P.Props P.Value P.Handler P.TaskState P.Effect P.Payload) };

    ghost view = { λ provisions. provisions.all };

    ghost invariant = { λ provisions. (kind : ℕ) →
        get nat_cmp provisions.places kind ≡ kind_place provisions.all kind };
}

impl<P: Parts> Provisions<P> {
    /// Nothing is provided.
    pub fn new(alloc: Global) -> Provisions<P>
        ensures empty { result ≡ [] }
    {
        Provisions {
            all: List::new(alloc),
            places: BTreeMap::new(alloc),
        }
    }

    /// What is provided, to read.
    pub fn as_slice(&self) -> &[Provided<P>]
        ensures items { result.now ≡ self.now }
    {
        self.all.as_slice()
    }

    /// The first value of a kind.
    pub fn get(&self, kind: u32) -> Option<&P::Value>
        ensures value { option_copied result ≡ provided self.now kind }
    {
        match self.place(kind) {
            Some(at) => value_at(self.all.as_slice(), at),
            None => None,
        }
    }

    /// Puts a value in the place of the one of its kind, or at the end.
    pub fn put(&mut self, kind: u32, value: P::Value) -> Result<(), OutOfMemory>
        ensures put { OnOk result (self.new ≡ put_provided self.old kind value) }
        ensures err { OnErr result (self.new ≡ self.old) }
    {
        if let Some(at) = self.place(kind) {
            self.all.set(at, Provided { kind, value });
            return Ok(());
        }
        let end = self.all.len();
        self.places.insert(kind, end)?;
        if self.all.push(Provided { kind, value }).is_err() {
            self.places.remove(&kind);
            return Err(OutOfMemory);
        }
        Ok(())
    }

    // The index of the first value of a kind.
    fn place(&self, kind: u32) -> Option<usize>
        ensures { result ≡ kind_place self.now kind }
    {
        match self.places.get(&kind) {
            Some(at) => Some(*at),
            None => None,
        }
    }
}

// The value at an index.
fn value_at<P: Parts>(all: &[Provided<P>], at: usize) -> Option<&P::Value>
    ensures { option_copied result ≡ option_map (λ found. found.value) (slice_get all.now at) }
{
    match all.get(at) {
        Some(found) => Some(&found.value),
        None => None,
    }
}
