//! A set of scopes.

ghost use Rattle.std.specs.Prelude.{◌≡◌, ◌||◌, [], ℕ, nat_eq, not, true, IfOk, OnOk};
ghost use Rattle.rt_model.specs.Lists.{has};

use rt_values::OutOfMemory;
use std::alloc::Global;
use std::collections::BTreeSet;
use std::marker::Model;

// So many scopes are compared one by one.
const FEW: usize = 8;

/// Numbers of scopes. A few are compared one by one; of more each is found, or put in wherever it
/// comes, by one way down.
#[derive(Drop)]
pub(crate) struct ScopeSet {
    /// Those that came first.
    few: Vec<u64>,
    /// The others.
    numbers: BTreeSet<u64>,
}

impl Model for ScopeSet {
    ghost use Rattle.std.specs.Prelude.{List, ℕ, ◌++◌};

    ghost Value = { List ℕ };

    ghost view = { λ set. set.few.items ++ set.numbers.keys };
}

impl ScopeSet {
    /// No scope.
    pub fn new(alloc: Global) -> ScopeSet
        ensures empty { result ≡ [] }
    {
        ScopeSet {
            few: Vec::new(alloc),
            numbers: BTreeSet::new(alloc),
        }
    }

    /// Whether a scope is in it.
    #[inline]
    pub fn has(&self, scope: u64) -> bool
        ensures { result ≡ has self.now scope }
    {
        if is_among(self.few.as_slice(), scope) {
            return true;
        }
        is_below(&self.numbers, scope)
    }

    /// Puts a scope in, and answers whether it wasn't there.
    pub fn put(&mut self, scope: u64) -> Result<bool, OutOfMemory>
        ensures fresh { IfOk result (λ fresh. fresh ≡ not (has self.old scope)) }
        ensures all { OnOk result ((other : ℕ) →
            has self.new other ≡ (nat_eq scope other || has self.old other)) }
    {
        if is_among(self.few.as_slice(), scope) {
            return Ok(false);
        }
        if has_room(self.few.as_slice(), &self.numbers) {
            self.few.push(scope)?;
            return Ok(true);
        }
        let fresh = self.numbers.insert(scope)?;
        Ok(fresh)
    }
}

// Whether a scope is one of a few.
#[inline]
fn is_among(few: &[u64], scope: u64) -> bool
    ensures { result ≡ has few.now scope }
{
    for other in few {
        if *other == scope {
            return true;
        }
    }
    false
}

// Whether a scope is one of the others.
#[inline]
fn is_below(numbers: &BTreeSet<u64>, scope: u64) -> bool
    ensures { result ≡ has numbers.now.keys scope }
{
    if numbers.is_empty() {
        return false;
    }
    numbers.contains(&scope)
}

// Whether one more may stand among the few: then there are no others.
fn has_room(few: &[u64], numbers: &BTreeSet<u64>) -> bool
    ensures { result ≡ true → numbers.now.keys ≡ [] }
{
    few.len() < FEW && numbers.is_empty()
}
