//! Numbers by height, or by another number that they stand with.
ghost use Rattle.std.specs.Prelude.{◌≡◌, ◌<◌, ◌∷◌, ℕ, [], cond, length, map, nat_eq, true, false, IfSome, IfNone, OnOk, OnErr, MatchOption};
ghost use Rattle.std.specs.BTreeMap.{is_at};
ghost use Rattle.std.specs.BTreeSet.{keys_between};
ghost use Rattle.std.specs.declared.ops.Bound.TheVariants.{Included, Unbounded};
ghost use Rattle.std.specs.List.{list_any, take_while};
ghost use Rattle.std.specs.Ordering.{nat_cmp};
ghost use Rattle.std.specs.List.Sorted.{IsStrictlySortedBy};
ghost use Rattle.run_state.specs.Effects.{has_rank, rank_cmp};

use rt_values::OutOfMemory;
use std::alloc::Global;
use std::collections::BTreeSet;
use std::collections::btree_set::{Iter, Range};
use std::marker::Model;

/// Numbers, each with a height, in the order of heights, and on one height in their own.
#[derive(Drop)]
pub struct Ranks {
    pairs: BTreeSet<(u64, u64)>,
}

impl Model for Ranks {
    ghost use Rattle.std.specs.Prelude.{List, ℕ};

    ghost Value = { List (ℕ × ℕ) };

    ghost view = { λ ranks. ranks.pairs.keys };
}

impl Ranks {
    /// No number.
    pub fn new(alloc: Global) -> Ranks
        ensures empty { result ≡ [] }
    {
        Ranks {
            pairs: BTreeSet::new(alloc),
        }
    }

    /// One more number with its height.
    pub fn insert(&mut self, height: u64, number: u64) -> Result<(), OutOfMemory>
        ensures joined { OnOk result ((h n : ℕ) → has_rank self.new h n
            ≡ cond (is_at (rank_cmp (height, number)) (h, n)) true (has_rank self.old h n)) }
        ensures err { OnErr result (self.new ≡ self.old) }
    {
        self.pairs.insert((height, number))?;
        Ok(())
    }

    /// A number goes, where it has this height.
    pub fn remove(&mut self, height: u64, number: u64)
        ensures left { (h n : ℕ) → has_rank self.new h n
            ≡ cond (is_at (rank_cmp (height, number)) (h, n)) false (has_rank self.old h n) }
        ensures fewer { has_rank self.old height number ≡ true → length self.new < length self.old }
    {
        self.pairs.remove(&(height, number));
    }

    /// Whether a number is there with a height.
    pub fn has(&self, height: u64, number: u64) -> bool
        ensures { result ≡ has_rank self.now height number }
    {
        self.pairs.contains(&(height, number))
    }

    /// The numbers that stand with a height, ascending, to be met one by one from one search on. It takes
    /// no memory.
    pub fn numbers_of(&self, height: u64) -> RankNumbers<'_>
        ensures ascending { IsStrictlySortedBy nat_cmp result }
        ensures members { (number : ℕ) → list_any (is_at (nat_cmp number)) result
            ≡ has_rank self.now height number }
    {
        numbers_at(&self.pairs, height)
    }

    /// The least number that stands with a height.
    pub fn first_of(&self, height: u64) -> Option<u64>
        ensures first { IfSome result (λ number. has_rank self.now height number ≡ true) }
        ensures none { IfNone result ((number : ℕ) → has_rank self.now height number ≡ false) }
    {
        let mut numbers = self.numbers_of(height);
        numbers.next()
    }

    /// The numbers with their heights, in order, to be met one by one.
    pub fn iter(&self) -> Iter<'_, (u64, u64)>
        ensures pairs { result ≡ self.now }
        ensures ascending { IsStrictlySortedBy rank_cmp self.now }
    {
        self.pairs.iter()
    }
}

/// The numbers of one height, of which each is met once.
#[derive(Drop)]
pub struct RankNumbers<'a> {
    /// What stands from them on.
    pairs: Range<'a, (u64, u64)>,
    height: u64,
}

impl<'a> Model for RankNumbers<'a> {
    ghost use Rattle.std.specs.Prelude.{List, ℕ, map, nat_eq};
    ghost use Rattle.std.specs.List.{take_while};

    ghost Value = { List ℕ };

    ghost view = { λ numbers. map (λ rank. rank.1)
        (take_while (λ rank. nat_eq numbers.height rank.0) numbers.pairs) };
}

impl<'a> RankNumbers<'a> {
    /// The next one, which is met then.
    pub fn next(&mut self) -> Option<u64>
        ensures next { MatchOption result (self.old ≡ []) (λ number. self.old ≡ number ∷ self.new) }
    {
        let height = self.height;
        let pair = self.pairs.next()?;
        if height == pair.0 { Some(pair.1) } else { None }
    }
}

/// Those who stand with a height, to be met.
fn numbers_at(pairs: &BTreeSet<(u64, u64)>, height: u64) -> RankNumbers<'_>
    ensures front { result ≡ map (λ rank. rank.1) (take_while (λ rank. nat_eq height rank.0)
        (keys_between rank_cmp (Included (height, 0)) Unbounded pairs.now)) }
    ensures ordered { IsStrictlySortedBy rank_cmp pairs.now.keys }
{
    RankNumbers {
        pairs: pairs.range((height, 0)..),
        height,
    }
}
