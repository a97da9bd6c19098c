//! What is called in turn, which contracts see as its list, the first one first.
ghost use Rattle.std.specs.Prelude.{◌≡◌, ◌∷◌, [], ℕ, reverse, true, MatchOption, IfOk, OnOk};
ghost use Rattle.rt_model.specs.Lists.{has};
ghost use Rattle.run_outside.specs.Among.{are_among};

use rt_values::{List, OutOfMemory};
use run_shown::Listener;
use std::alloc::Global;
use std::marker::Model;
use tree_nodes::Parts;

/// What is called in a scope.
pub trait InScope: Drop {
    ghost use Rattle.std.specs.Prelude.{ℕ};

    /// The number of the scope.
    ghost scope_of: { Self → ℕ };

    /// The number of the scope.
    fn scope(&self) -> u64
        ensures scope { result ≡ scope_of self.now };
}

impl<P: Parts> InScope for Listener<P> {
    ghost scope_of = { λ listener. listener.origin };

    fn scope(&self) -> u64 {
        self.origin
    }
}

/// What is called in turn. Its scopes stand beside it, each once where those of one scope follow
/// one another, so that a look whether all of them are live doesn't go through all that is called.
#[derive(Drop)]
pub struct Awaiting<T: InScope> {
    /// The last one first, so that the first one leaves the others where they are.
    items: Vec<T>,
    /// The scopes of all of them, and maybe of some that were called.
    scopes: Vec<u64>,
}

impl<T: InScope> Model for Awaiting<T> {
    ghost use Rattle.std.specs.Prelude.{◌≡◌, List as Items, reverse, true};
    ghost use Rattle.std.specs.Coded.{coded_list};
    ghost use Rattle.run_outside.specs.Among.{are_among};

    ghost Value = { Items T };

    ghost coded = { coded_list T.code };

    ghost view = { λ awaiting. reverse awaiting.items.items };

    ghost invariant = { λ awaiting.
        are_among T.scope_of awaiting.scopes.items awaiting.items.items ≡ true };
}

impl<T: InScope> Awaiting<T> {
    /// Nothing is called.
    pub fn new(alloc: Global) -> Awaiting<T>
        ensures empty { result ≡ [] }
    {
        Awaiting {
            items: Vec::new(alloc),
            scopes: Vec::new(alloc),
        }
    }

    /// All of a list are called.
    pub fn of(alloc: Global, list: List<T>) -> Result<Awaiting<T>, OutOfMemory>
        ensures items { IfOk result (λ awaiting. awaiting ≡ list) }
    {
        let mut rest = list;
        let mut awaiting = Awaiting::new(alloc);
        while let Some(item) = rest.pop() {
            awaiting.put_first(item)?;
        }
        Ok(awaiting)
    }

    // Puts one before the others.
    fn put_first(&mut self, item: T) -> Result<(), OutOfMemory>
        ensures first { OnOk result (self.new ≡ item ∷ self.old) }
    {
        add_scope(&mut self.scopes, item.scope())?;
        self.items.push(item)?;
        Ok(())
    }

    /// Takes the first one off. The others stay where they are.
    pub fn take_first(&mut self) -> Option<T>
        ensures first { MatchOption result ((self.old ≡ []) × (self.new ≡ []))
            (λ first. self.old ≡ first ∷ self.new) }
    {
        self.items.pop()
    }

    /// The list of what is called.
    pub fn into_list(self) -> List<T>
        ensures items { result ≡ self }
    {
        let Awaiting {
            mut items,
            scopes: _,
        } = self;
        items.reverse();
        List::from_vec(items)
    }

    /// What is called, the last one first.
    pub fn last_first(&self) -> &[T]
        ensures items { self.now ≡ reverse result.now }
    {
        self.items.as_slice()
    }

    /// Numbers among which are the scopes of all.
    pub fn scopes(&self) -> &[u64]
        ensures scopes { are_among T.scope_of result.now self.now ≡ true }
    {
        self.scopes.as_slice()
    }
}

/// Puts a number at the end of others, unless it is there.
fn add_scope(scopes: &mut Vec<u64>, scope: u64) -> Result<(), OutOfMemory>
    ensures added { OnOk result (has scopes.new.items scope ≡ true) }
    ensures others { (n : ℕ) → has scopes.old.items n ≡ true → has scopes.new.items n ≡ true }
{
    let count = scopes.len();
    if count > 0 && scopes[count - 1] == scope {
        return Ok(());
    }
    scopes.push(scope)?;
    Ok(())
}
