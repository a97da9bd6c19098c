//! Things under numbers that are never used again, each made for a scope and found by it.
ghost use Rattle.std.specs.Prelude.{◌≡◌, ◌↔◌, ◌⊎◌, ℕ, ◌+◌, ◌-◌, ◌^◌, ◌<◌, ◌++◌, ◌∷◌, [], List, IfOk, OnOk, OnErr, is_some, Option, not, nat_eq};
ghost use Rattle.std.specs.Option.{option_copied};
ghost use Rattle.std.specs.Prelude.{map};
ghost use Rattle.std.specs.List.{take_while, slice_get, filter};
ghost use Rattle.std.specs.Map.{keys_of};
ghost use Rattle.std.specs.Ordering.{nat_cmp};
ghost use Rattle.std.specs.List.Sorted.{IsStrictlySortedBy};
ghost use Rattle.std.specs.BTreeSet.{keys_between};
ghost use Rattle.std.specs.declared.ops.Bound.TheVariants.{Included, Unbounded};
ghost use Rattle.rt_cells.specs.Orders.{same_scope};
ghost use Rattle.rt_cells.specs.Held.{owner_cmp, held_at, value_at, owner_at, entered, without, without_scope, written, numbers_of};

use crate::faults::CellsFault;
use rt_values::{List, OutOfMemory, ScopeId};
use std::alloc::Global;
use std::collections::{BTreeMap, BTreeSet};
use std::marker::Model;

/// A thing with the scope that it was made for.
#[derive(Drop)]
pub struct Held<T> {
    pub owner: ScopeId,
    pub value: T,
}

/// Things by number. A clause sees them ascending, and the next number.
#[derive(Drop)]
pub struct Numbered<T> {
    held: BTreeMap<u64, Held<T>>,
    owners: BTreeSet<(ScopeId, u64)>,
    next: u64,
}

impl<T> Model for Numbered<T> {
    ghost use Rattle.std.specs.Prelude.{map};
    ghost use Rattle.std.specs.List.{take_while, slice_get};
    ghost use Rattle.std.specs.Map.{keys_of};
    ghost use Rattle.std.specs.Ordering.{nat_cmp};
    ghost use Rattle.std.specs.List.Sorted.{IsStrictlySortedBy};
    ghost use Rattle.std.specs.BTreeSet.{keys_between};
    ghost use Rattle.std.specs.declared.ops.Bound.TheVariants.{Included, Unbounded};
    ghost use Rattle.rt_cells.specs.Orders.{same_scope};
    ghost use Rattle.rt_cells.specs.Held.{owner_cmp, Numbers};
    ghost use Rattle.rt_cells.specs.Index.{IsIndexed};

    ghost Value = { Numbers T };

    ghost view = { λ numbered. record { held = numbered.held.entries; next = numbered.next } };

    ghost invariant = { λ numbered.
        IsIndexed numbered.held.entries numbered.owners.keys numbered.next };
}

impl<T> Numbered<T> {
    /// Nothing is kept, and `first` is the next number.
    pub fn new(alloc: Global, first: u64) -> Numbered<T>
        ensures empty { result ≡ record { held = []; next = first } }
    {
        Numbered {
            held: BTreeMap::new(alloc),
            owners: BTreeSet::new(alloc),
            next: first,
        }
    }

    /// The scope that the thing of a number was made for.
    pub fn owner(&self, number: u64) -> Option<ScopeId>
        ensures owner { result ≡ owner_at number self.now.held }
    {
        self.held.get(&number).map(|thing| thing.owner)
    }

    /// Numbers ascend.
    #[inline(always)]
    pub fn ascends(&self)
        ensures ascending { IsStrictlySortedBy nat_cmp (keys_of self.now.held) }
    {
        let _things = &self.held;
    }

    /// What is kept under a number.
    pub fn get(&self, number: u64) -> Option<&T>
        ensures value { option_copied result ≡ value_at number self.now.held }
    {
        self.held.get(&number).map(|thing| &thing.value)
    }
}

impl<T> Numbered<T> {
    /// The numbers of the things that were made for the scope, ascending.
    pub fn numbers_of(&self, alloc: Global, owner: ScopeId) -> Result<List<u64>, OutOfMemory>
        ensures numbers { IfOk result (λ numbers. numbers ≡ numbers_of owner self.now.held) }
        ensures ascending { IfOk result (IsStrictlySortedBy nat_cmp) }
    {
        let numbers = numbers_by(alloc, &self.owners, owner)?;
        Ok(List::from_vec(numbers))
    }
}

impl<T> Numbered<T> {
    /// The least number of the things that were made for the scope.
    pub fn first_of(&self, owner: ScopeId) -> Option<u64>
        ensures first { result ≡ slice_get (numbers_of owner self.now.held) 0 }
        ensures ascending { IsStrictlySortedBy nat_cmp (keys_of self.now.held) }
    {
        let _things = &self.held;
        let owned = self.owners.range((owner, 0)..).next()?;
        if owner == owned.0 {
            Some(owned.1)
        } else {
            None
        }
    }
}

impl<T: Drop> Numbered<T> {
    /// Keeps one more thing, under the next number.
    pub fn insert(&mut self, owner: ScopeId, value: T) -> Result<u64, CellsFault>
        ensures drawn { IfOk result (λ number. number ≡ self.old.next) }
        ensures ok { OnOk result (self.new ≡ record {
          held = entered self.old.next (record { owner = owner; value = value }) self.old.held;
          next = self.old.next + 1;
        }) }
        ensures fresh { held_at self.old.next self.old.held ≡ None }
        ensures kept { OnOk result (held_at self.old.next self.new.held
            ≡ Some (record { owner = owner; value = value })) }
        ensures last { OnOk result (self.new.held
            ≡ self.old.held ++ (self.old.next, record { owner = owner; value = value }) ∷ []) }
        ensures at_end { (result ≡ Err CellsFault.IdsExhausted) ↔ (self.old.next ≡ 2 ^ 64 - 1) }
        ensures err { OnErr result (self.new ≡ self.old) }
    {
        let number = self.next;
        let Some(next) = number.checked_add(1) else {
            return Err(CellsFault::IdsExhausted);
        };
        let Ok(_) = self.owners.insert((owner, number)) else {
            return Err(CellsFault::OutOfMemory);
        };
        let Ok(_) = self.held.insert(number, Held { owner, value }) else {
            self.owners.remove(&(owner, number));
            return Err(CellsFault::OutOfMemory);
        };
        self.next = next;
        Ok(number)
    }

    /// Keeps one more thing, under a number that was drawn elsewhere. The numbers after it are next
    /// then. A number below the next one is refused as one that is used up.
    pub fn enter(&mut self, owner: ScopeId, number: u64, value: T) -> Result<(), CellsFault>
        ensures ok { OnOk result (self.new ≡ record {
          held = self.old.held ++ (number, record { owner = owner; value = value }) ∷ [];
          next = number + 1;
        }) }
        ensures used { (result ≡ Err CellsFault.IdsExhausted)
            ↔ ((number < self.old.next) ⊎ (number ≡ 2 ^ 64 - 1)) }
        ensures err { OnErr result (self.new ≡ self.old) }
    {
        let before = self.next;
        if number < before {
            return Err(CellsFault::IdsExhausted);
        }
        self.next = number;
        match self.insert(owner, value) {
            Ok(_drawn) => Ok(()),
            Err(fault) => {
                self.next = before;
                Err(fault)
            }
        }
    }

    /// Puts another value under a number; false where nothing is kept there.
    pub fn write(&mut self, number: u64, value: T) -> bool
        ensures kept { result ≡ is_some (held_at number self.old.held) }
        ensures written { self.new ≡ record self.old { held = written number value self.old.held } }
    {
        match self.held.get_mut(&number) {
            Some(thing) => {
                thing.value = value;
                true
            }
            None => false,
        }
    }

    /// Takes out what is kept under a number.
    pub fn remove(&mut self, number: u64) -> Option<T>
        ensures value { result ≡ value_at number self.old.held }
        ensures others { self.new ≡ record self.old { held = without number self.old.held } }
        ensures gone { self.new.held ≡ filter (λ thing. not (nat_eq thing.0 number)) self.old.held }
    {
        let Held { owner, value } = self.held.remove(&number)?;
        self.owners.remove(&(owner, number));
        Some(value)
    }

    /// Takes out the things that were made for the scope.
    pub fn remove_owned(&mut self, owner: ScopeId)
        ensures others { self.new ≡ record self.old { held = without_scope owner self.old.held } }
    {
        while let Some(number) = self.first_of(owner) {
            self.remove(number);
        }
    }
}

/// The numbers that stand by a scope, ascending.
fn numbers_by(
    alloc: Global,
    owners: &BTreeSet<(ScopeId, u64)>,
    owner: ScopeId,
) -> Result<Vec<u64>, OutOfMemory>
    ensures front { IfOk result (λ numbers. numbers.items ≡ map (λ owned. owned.1)
        (take_while (λ owned. same_scope owner owned.0)
        (keys_between owner_cmp (Included (owner, 0)) Unbounded owners.now))) }
    ensures ordered { IsStrictlySortedBy owner_cmp owners.now.keys }
{
    let numbers = owners
        .range((owner, 0)..)
        .take_while(|owned| owner == owned.0)
        .map(|owned| owned.1)
        .collect(alloc)?;
    Ok(numbers)
}
