//! Effects that wait for a quiet moment, in one batch for each scope.
ghost use Rattle.std.specs.Prelude.{◌≡◌, ◌∷◌, [], ◌++◌, ◌==◌, ◌↔◌, if◌then◌else◌, true, IsTrue, MatchOption, IfSome, OnOk, OnErr, Some, is_some};
ghost use Rattle.std.specs.Ordering.{nat_cmp};
ghost use Rattle.std.specs.BTreeMap.{get};
ghost use Rattle.rt_sched.specs.Batches.{with_effect, without_batch, batch_orders};
ghost use Rattle.rt_sched.specs.Due.{NoneEarlier};
ghost use Rattle.rt_sched.specs.Pending.{effects_of};

use crate::line::Line;
use crate::order::ScopeOrder;
use rt_values::{List, OutOfMemory};
use std::alloc::Global;
use std::collections::BTreeMap;
use std::marker::Model;

/// All queued effects of one scope, in the order in which they were queued. Two of these compare by
/// order.
#[derive(Drop)]
#[derive_where(PartialEq, Eq, PartialOrd, Ord)]
pub struct Effect<E> {
    pub order: ScopeOrder,
    #[derive_where(skip)]
    pub effects: List<E>,
}

/// The batches by order.
#[derive(Drop)]
pub struct Effects<E> {
    line: Line,
    batches: BTreeMap<u64, List<E>>,
}

impl<E> Model for Effects<E> {
    ghost use Rattle.std.specs.Prelude.{List as Items};
    ghost use Rattle.rt_sched.specs.declared.order.ScopeOrder.{ScopeOrder};

    ghost Value = { Items (ScopeOrder × Items E) };

    ghost use Rattle.rt_sched.specs.Pending.{ArePending, batches_of};

    ghost view = { λ pending. batches_of pending.batches pending.line.waiting };

    ghost invariant = { λ pending. ArePending pending.line pending.batches };
}

impl<E: Drop> Effects<E> {
    pub fn new(alloc: Global) -> Effects<E>
        ensures empty { result ≡ [] }
    {
        Effects {
            line: Line::new(alloc),
            batches: BTreeMap::new(alloc),
        }
    }

    /// Puts an effect behind the others of its scope, or begins a batch with it.
    pub fn push(&mut self, alloc: Global, order: ScopeOrder, effect: E) -> Result<(), OutOfMemory>
        ensures ok { OnOk result (self.new ≡ with_effect order effect self.old) }
        ensures err { OnErr result (self.new ≡ self.old) }
    {
        let number = order.id().0;
        if self.batches.contains_key(&number) {
            return push_later(&mut self.batches, number, effect);
        }
        let mut batch = List::new(alloc);
        batch.push(effect)?;
        self.batches.insert(number, batch)?;
        if let Err(refused) = self.line.enter(alloc, number) {
            self.batches.remove(&number);
            return Err(refused);
        }
        self.line.push(number, order);
        Ok(())
    }

    /// Takes out the first batch.
    pub fn pop_first(&mut self) -> Option<Effect<E>>
        ensures first { MatchOption result ((self.old ≡ []) × (self.new ≡ []))
            (λ batch. self.old ≡ (batch.order, batch.effects) ∷ self.new) }
        ensures least { IfSome result (λ batch. NoneEarlier batch.order (batch_orders self.old)) }
    {
        let (order, number) = self.line.pop_first()?;
        self.line.forget(number);
        let effects = self.batches.remove(&number)?;
        Some(Effect { order, effects })
    }

    /// Drops the batch of a scope.
    pub fn forget(&mut self, number: u64)
        ensures gone { self.new ≡ without_batch number self.old }
    {
        self.line.forget(number);
        self.batches.remove(&number);
    }

    /// Whether there is no batch.
    pub fn is_empty(&self) -> bool
        ensures empty { IsTrue result ↔ (self.now ≡ []) }
    {
        self.line.is_empty()
    }
}

// Puts an effect behind the others of a scope that has a batch.
fn push_later<E: Drop>(
    batches: &mut BTreeMap<u64, List<E>>,
    number: u64,
    effect: E,
) -> Result<(), OutOfMemory>
    requires has { is_some (get nat_cmp batches.old number) ≡ true }
    ensures ok { OnOk result ((q : _) → get nat_cmp batches.new q
        ≡ (if q == number then Some (effects_of (get nat_cmp batches.old number) ++ effect ∷ [])
        else get nat_cmp batches.old q)) }
    ensures err { OnErr result ((q : _) → get nat_cmp batches.new q ≡ get nat_cmp batches.old q) }
{
    match batches.get_mut(&number) {
        Some(batch) => batch.push(effect),
        None => Ok(()),
    }
}
