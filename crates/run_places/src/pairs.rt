//! Numbers under indices, and by index the first of each.

ghost use Rattle.std.specs.Prelude.{◌≡◌, ◌++◌, ◌∷◌, ◌<◌, [], ℕ, None, get_or, length, IfOk, OnErr, OnOk};
ghost use Rattle.rt_model.specs.Lists.{at};
ghost use Rattle.run_places.specs.Drawn.{filled, moved};

use rt_values::OutOfMemory;
use std::alloc::Global;
use std::marker::Model;

/// Numbers, each under an index, in the order in which they came.
#[derive(Drop)]
pub(crate) struct Pairs {
    pairs: Vec<(u64, u64)>,
    /// By index, the first number of each.
    firsts: Vec<Option<u64>>,
}

impl Model for Pairs {
    ghost use Rattle.std.specs.Prelude.{List, ℕ};
    ghost use Rattle.run_places.specs.Drawn.{Agrees};

    ghost Value = { List (ℕ × ℕ) };

    ghost view = { λ pairs. pairs.pairs.items };

    ghost invariant = { λ pairs. Agrees pairs.firsts.items pairs.pairs.items };
}

impl Pairs {
    /// No number.
    pub fn new(alloc: Global) -> Pairs
        ensures empty { result ≡ [] }
    {
        Pairs {
            pairs: Vec::new(alloc),
            firsts: Vec::new(alloc),
        }
    }

    // No number, and room for so many.
    fn with_room(alloc: Global, count: usize) -> Result<Pairs, OutOfMemory>
        ensures empty { IfOk result (λ drawn. drawn ≡ []) }
    {
        Ok(Pairs {
            pairs: Vec::with_capacity(alloc, count)?,
            firsts: Vec::with_capacity(alloc, count)?,
        })
    }

    /// The numbers with their indices, in their order.
    pub fn as_slice(&self) -> &[(u64, u64)]
        ensures pairs { result.now ≡ self.now }
    {
        self.pairs.as_slice()
    }

    /// The same numbers once more.
    pub fn copy(&self, alloc: Global) -> Result<Pairs, OutOfMemory>
        ensures copied { IfOk result (λ copy. copy ≡ self.now) }
    {
        Ok(Pairs {
            pairs: Vec::from_slice(alloc, self.pairs.as_slice())?,
            firsts: Vec::from_slice(alloc, self.firsts.as_slice())?,
        })
    }

    /// The first number under an index. Takes no look through the others.
    pub fn get(&self, spot: u64) -> Option<u64>
        ensures { result ≡ at self.now spot }
    {
        number_at(self.firsts.as_slice(), spot as usize)
    }

    /// Puts a number after the others.
    pub fn push(&mut self, spot: u64, number: u64) -> Result<(), OutOfMemory>
        ensures ok { OnOk result (self.new ≡ self.old ++ (spot, number) ∷ []) }
        ensures err { OnErr result (self.new ≡ self.old) }
    {
        fill(&mut self.firsts, spot as usize)?;
        self.pairs.push((spot, number))?;
        put_first(&mut self.firsts, spot as usize, number);
        Ok(())
    }

    /// Each number under another index. Those without one are left out.
    pub fn moved(&self, alloc: Global, to: &[Option<u64>]) -> Result<Pairs, OutOfMemory>
        ensures moved { IfOk result (λ drawn. drawn ≡ moved to.now self.now) }
    {
        let mut drawn = Pairs::with_room(alloc, self.pairs.len())?;
        for pair in self.pairs.as_slice() {
            drawn.push_moved(to, pair)?;
        }
        Ok(drawn)
    }

    // Puts a number after the others under another index, where it has one.
    fn push_moved(&mut self, to: &[Option<u64>], pair: &(u64, u64)) -> Result<(), OutOfMemory>
        ensures { OnOk result (self.new ≡ self.old ++ moved to.now (pair.now ∷ [])) }
    {
        match number_at(to, pair.0 as usize) {
            Some(index) => self.push(index, pair.1),
            None => Ok(()),
        }
    }
}

/// The number at an index, none past the end.
pub(crate) fn number_at(numbers: &[Option<u64>], index: usize) -> Option<u64>
    ensures { result ≡ get_or numbers.now index None }
{
    if index < numbers.len() {
        numbers[index]
    } else {
        None
    }
}

// Makes numbers as long as an index wants, with none at each new one.
fn fill(numbers: &mut Vec<Option<u64>>, index: usize) -> Result<(), OutOfMemory>
    ensures long { OnOk result (index < length numbers.new.items) }
    ensures same { (spot : ℕ) →
        get_or numbers.new.items spot None ≡ get_or numbers.old.items spot None }
{
    if index < numbers.len() {
        return Ok(());
    }
    match index.checked_add(1) {
        Some(count) => {
            numbers.resize(count, None)?;
            Ok(())
        }
        None => Err(OutOfMemory),
    }
}

// Puts a number at an index, where none stands there.
fn put_first(numbers: &mut Vec<Option<u64>>, index: usize, number: u64)
    requires within { index < length numbers.old.items }
    ensures { numbers.new.items ≡ filled numbers.old.items index number }
{
    if numbers[index].is_none() {
        numbers[index] = Some(number);
    }
}
