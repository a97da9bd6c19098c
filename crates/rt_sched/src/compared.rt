//! How orders compare, and what stands under one.
ghost use Rattle.std.specs.Prelude.{◌≡◌, true};
ghost use Rattle.std.specs.Ordering.{is_lt};
ghost use Rattle.rt_sched.specs.Order.{order_before, same_order};

use crate::dirty::DirtyTasks;
use crate::effects::Effect;
use crate::order::ScopeOrder;
use std::hash::Hash;

/// Orders are equal where their heights and numbers are, and come by height and then by number;
/// equal ones have one hash.
pub fn orders_compare(a: &ScopeOrder, b: &ScopeOrder)
    ensures equal { ⟦<ScopeOrder as PartialEq>⟧.eq a.now b.now ≡ same_order a.now b.now }
    ensures less { is_lt (⟦<ScopeOrder as Ord>⟧.cmp a.now b.now) ≡ order_before a.now b.now }
    ensures hash { same_order a.now b.now ≡ true →
        ⟦<ScopeOrder as Hash>⟧.hash_input a.now ≡ ⟦<ScopeOrder as Hash>⟧.hash_input b.now }
{}

/// The tasks of two scopes compare as the scopes' orders do.
pub fn dirty_tasks_compare(a: &DirtyTasks, b: &DirtyTasks)
    ensures equal { ⟦<DirtyTasks as PartialEq>⟧.eq a.now b.now
        ≡ same_order a.now.order b.now.order }
    ensures order { ⟦<DirtyTasks as Ord>⟧.cmp a.now b.now
        ≡ ⟦<ScopeOrder as Ord>⟧.cmp a.now.order b.now.order }
{}

/// So do the batches of two scopes.
pub fn effects_compare<E: Drop>(a: &Effect<E>, b: &Effect<E>)
    ensures equal { ⟦<Effect<E> as PartialEq>⟧.eq a.now b.now
        ≡ same_order a.now.order b.now.order }
    ensures order { ⟦<Effect<E> as Ord>⟧.cmp a.now b.now
        ≡ ⟦<ScopeOrder as Ord>⟧.cmp a.now.order b.now.order }
{}
