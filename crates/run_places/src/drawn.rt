//! What was drawn for the nodes or components of a tree.

ghost use Rattle.std.specs.Prelude.{◌≡◌, ◌++◌, ◌∷◌, [], true, false, IfOk, OnErr, OnOk};
ghost use Rattle.rt_model.specs.Lists.{at};
ghost use Rattle.run_places.specs.Drawn.{moved};
ghost use Rattle.run_places.specs.Held.{pairs_in};

use crate::pairs::{Pairs, number_at};
use rt_values::OutOfMemory;
use std::alloc::Global;
use std::marker::Model;
use std::rc::Rc;
use std::{mem, slice};

/// Where numbers are kept: one alone here, several in a list that copies share.
#[derive(Drop)]
pub(crate) enum Kept {
    None,
    One((u64, u64)),
    Many(Rc<Pairs>),
}

/// Numbers, each under the index of its node or component in the tree, in the order in which they were
/// drawn. One alone takes no room of its own. All copies share several until one more is drawn for one
/// of them.
#[derive(Drop)]
pub struct Drawn {
    alloc: Global,
    held: Kept,
}

impl Model for Drawn {
    ghost use Rattle.std.specs.Prelude.{List, ℕ};
    ghost use Rattle.run_places.specs.Held.{pairs_in};

    ghost Value = { List (ℕ × ℕ) };

    ghost view = { λ drawn. pairs_in drawn.held };
}

impl Drawn {
    /// No number.
    pub fn new(alloc: Global) -> Drawn
        ensures empty { result ≡ [] }
    {
        Drawn {
            alloc,
            held: Kept::None,
        }
    }

    /// The numbers with their indices, in the order in which they were drawn.
    pub fn as_slice(&self) -> &[(u64, u64)]
        ensures pairs { result.now ≡ self.now }
    {
        match &self.held {
            Kept::None => &[],
            Kept::One(pair) => slice::from_ref(pair),
            Kept::Many(pairs) => pairs.as_ref().as_slice(),
        }
    }

    /// The same numbers once more.
    pub fn copy(&self, alloc: Global) -> Result<Drawn, OutOfMemory>
        ensures copied { IfOk result (λ copy. copy ≡ self.now) }
    {
        match &self.held {
            Kept::None => Ok(Drawn::new(alloc)),
            Kept::One(pair) => Ok(one_of(alloc, pair.0, pair.1)),
            Kept::Many(pairs) => Ok(Drawn {
                alloc,
                held: Kept::Many(pairs.clone()?),
            }),
        }
    }

    /// The first number under an index. Takes no look through the others.
    pub fn get(&self, spot: u64) -> Option<u64>
        ensures { result ≡ at self.now spot }
    {
        match &self.held {
            Kept::None => None,
            Kept::One(pair) => number_under(pair, spot),
            Kept::Many(pairs) => pairs.as_ref().get(spot),
        }
    }

    /// Puts a number after the others.
    pub fn push(&mut self, spot: u64, number: u64) -> Result<(), OutOfMemory>
        ensures ok { OnOk result (self.new ≡ self.old ++ (spot, number) ∷ []) }
        ensures err { OnErr result (self.new ≡ self.old) }
    {
        match mem::replace(&mut self.held, Kept::None) {
            Kept::None => {
                self.held = Kept::One((spot, number));
                Ok(())
            }
            Kept::One(first) => {
                let (held, done) = second(self.alloc, first, spot, number);
                self.held = held;
                done
            }
            Kept::Many(held) => {
                let (held, done) = joined(self.alloc, held, spot, number);
                self.held = Kept::Many(held);
                done
            }
        }
    }

    /// Each number under another index. Those without one are left out.
    pub fn moved(&self, alloc: Global, to: &[Option<u64>]) -> Result<Drawn, OutOfMemory>
        ensures moved { IfOk result (λ drawn. drawn ≡ moved to.now self.now) }
    {
        match &self.held {
            Kept::None => Ok(Drawn::new(alloc)),
            Kept::One(pair) => Ok(one_moved(alloc, pair, to)),
            Kept::Many(pairs) => {
                let pairs = pairs.as_ref().moved(alloc, to)?;
                let held = Rc::new(alloc, pairs)?;
                Ok(Drawn {
                    alloc,
                    held: Kept::Many(held),
                })
            }
        }
    }
}

// One number alone.
fn one_of(alloc: Global, spot: u64, number: u64) -> Drawn
    ensures { result ≡ (spot, number) ∷ [] }
{
    Drawn {
        alloc,
        held: Kept::One((spot, number)),
    }
}

// The number of a pair, where it is under this index.
fn number_under(pair: &(u64, u64), spot: u64) -> Option<u64>
    ensures { result ≡ at (pair.now ∷ []) spot }
{
    if pair.0 == spot { Some(pair.1) } else { None }
}

// One number under another index, none where it has none.
fn one_moved(alloc: Global, pair: &(u64, u64), to: &[Option<u64>]) -> Drawn
    ensures { result ≡ moved to.now (pair.now ∷ []) }
{
    match number_at(to, pair.0 as usize) {
        Some(spot) => one_of(alloc, spot, pair.1),
        None => Drawn::new(alloc),
    }
}

// One number with another one, or as it was where there is no room.
fn second(
    alloc: Global,
    first: (u64, u64),
    spot: u64,
    number: u64,
) -> (Kept, Result<(), OutOfMemory>)
    ensures ok { OnOk result.1 (pairs_in result.0 ≡ first ∷ (spot, number) ∷ []) }
    ensures err { OnErr result.1 (pairs_in result.0 ≡ first ∷ []) }
{
    match two_of(alloc, first, spot, number) {
        Ok(held) => (Kept::Many(held), Ok(())),
        Err(refused) => (Kept::One(first), Err(refused)),
    }
}

// Two numbers.
fn two_of(
    alloc: Global,
    first: (u64, u64),
    spot: u64,
    number: u64,
) -> Result<Rc<Pairs>, OutOfMemory>
    ensures { IfOk result (λ held. held.value ≡ first ∷ (spot, number) ∷ []) }
{
    let mut pairs = Pairs::new(alloc);
    pairs.push(first.0, first.1)?;
    pairs.push(spot, number)?;
    Ok(Rc::new(alloc, pairs)?)
}

// Numbers with one more. Where they are shared they are copied first, and the others keep theirs.
fn joined(
    alloc: Global,
    held: Rc<Pairs>,
    spot: u64,
    number: u64,
) -> (Rc<Pairs>, Result<(), OutOfMemory>)
    ensures ok { OnOk result.1 (result.0.value ≡ held.value ++ (spot, number) ∷ []) }
    ensures err { OnErr result.1 (result.0.value ≡ held.value) }
{
    let mut held = held;
    match push_alone(&mut held, spot, number) {
        Ok(true) => (held, Ok(())),
        Ok(false) => match copied_with(alloc, &held, spot, number) {
            Ok(copy) => (copy, Ok(())),
            Err(refused) => (held, Err(refused)),
        },
        Err(refused) => (held, Err(refused)),
    }
}

// A copy of numbers, with one more.
fn copied_with(
    alloc: Global,
    held: &Rc<Pairs>,
    spot: u64,
    number: u64,
) -> Result<Rc<Pairs>, OutOfMemory>
    ensures { IfOk result (λ copy. copy.value ≡ held.now.value ++ (spot, number) ∷ []) }
{
    let mut pairs = held.as_ref().copy(alloc)?;
    pairs.push(spot, number)?;
    Ok(Rc::new(alloc, pairs)?)
}

// Puts a number after the others, where no one shares them.
fn push_alone(held: &mut Rc<Pairs>, spot: u64, number: u64) -> Result<bool, OutOfMemory>
    ensures own { IfOk result (λ own. own ≡ true
        → held.new.value ≡ held.old.value ++ (spot, number) ∷ []) }
    ensures shared { IfOk result (λ own. own ≡ false → held.new.value ≡ held.old.value) }
    ensures err { OnErr result (held.new.value ≡ held.old.value) }
{
    match Rc::get_mut(held) {
        Some(pairs) => {
            pairs.push(spot, number)?;
            Ok(true)
        }
        None => Ok(false),
    }
}
