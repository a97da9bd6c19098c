//! A pass that counts its pops that found none, whatever the queue's rule.
#![tactic(auto)]

ghost use Rattle.std.specs.Prelude.{◌≡◌, ◌+◌, ◌-◌, ◌<◌, ◌^◌, ◌∷◌, [], IfNone, IfOk, IfSome};
ghost use Rattle.crossbeam_queue.specs.Fifo.{Forks, Learns, Pops};
ghost use Rattle.crossbeam_queue.specs.SegTies.{IsSegPassOf};

use crossbeam_queue::protocol::{Lesson, Outcome, Protocol, Split};
use crossbeam_queue::{RuledSegQueue, SegPass};
use std::alloc::{AllocError, Global};
use std::sync::Wait;

/// A pass with the count of its pops that found none. Its fields are private and it is made with its
/// queue alone, so no code but `pop` changes the count; and `pop` is of any rule, so that nothing but
/// the queue's own answer gives it the fact that it ensures where it finds none.
#[derive(Drop)]
pub struct Counted<T, V> {
    pass: SegPass<T, V>,
    nones: u64,
}

impl<T: Drop, V> Counted<T, V> {
    /// An empty queue with its first pass, by which nothing was popped.
    pub fn open<P: Protocol<T, V>>(
        alloc: Global,
    ) -> Result<(RuledSegQueue<T, V, P>, Counted<T, V>), AllocError>
        requires rule { P.holds [] (P.first ∷ []) }
        ensures queue { IfOk result (λ r. IsSegPassOf r.0 r.1.pass) }
        ensures view { IfOk result (λ r. r.1.pass.me.view.client ≡ P.first) }
        ensures nones { IfOk result (λ r. r.1.nones ≡ 0) }
    {
        let (line, pass) = RuledSegQueue::with_rule(alloc)?;
        Ok((line, Counted { pass, nones: 0 }))
    }

    /// Another pass, made of this one. Its pops aren't counted.
    pub fn another<P: Protocol<T, V>, M: Split<V>>(
        &mut self,
        line: &RuledSegQueue<T, V, P>,
    ) -> SegPass<T, V>
        requires queue { IsSegPassOf line.now self.old.pass }
        requires rule { Forks P.holds self.old.pass.id self.old.pass.me.view.client
            (M.left self.old.pass.me.view.client) (M.right self.old.pass.me.view.client) }
        ensures queue { IsSegPassOf line.now self.new.pass × IsSegPassOf line.now result }
        ensures left { self.new.pass.me.view.client ≡ M.left self.old.pass.me.view.client }
        ensures right { result.me.view.client ≡ M.right self.old.pass.me.view.client }
        ensures nones { self.new.nones ≡ self.old.nones }
    {
        line.another::<M>(&mut self.pass)
    }

    /// How many pops have found none.
    pub fn nones(&self) -> u64
        ensures count { result ≡ self.now.nones }
    {
        self.nones
    }

    /// The pass, without its count.
    pub fn into_pass(self) -> SegPass<T, V>
        ensures pass { result ≡ self.pass }
    {
        let Counted { pass, nones: _ } = self;
        pass
    }

    /// Takes the item at the front in one step, or counts that there was none.
    pub fn pop<P: Protocol<T, V>, M: Outcome<T, V> + Lesson<T, V>, R: Wait>(
        &mut self,
        rt: &R,
        line: &RuledSegQueue<T, V, P>,
    ) -> Option<T>
        requires queue { IsSegPassOf line.now self.old.pass }
        requires rule { Pops P.holds self.old.pass.id self.old.pass.me.view.client
            (M.then self.old.pass.me.view.client)
            × Learns P.holds self.old.pass.id self.old.pass.me.view.client
            (M.fact self.old.pass.me.view.client) }
        requires countable { self.old.nones < 2 ^ 64 - 1 }
        ensures queue { IsSegPassOf line.now self.new.pass }
        ensures some { IfSome result (λ x.
            M.then self.old.pass.me.view.client x self.new.pass.me.view.client
            × (self.new.nones ≡ self.old.nones)) }
        ensures none { IfNone result (
            (self.new.pass.me.view.client ≡ self.old.pass.me.view.client)
            × M.fact self.old.pass.me.view.client []
            × (self.new.nones ≡ self.old.nones + 1)) }
    {
        match line.pop_as::<M, R>(rt, &mut self.pass) {
            Some(item) => Some(item),
            None => {
                self.nones += 1;
                None
            }
        }
    }
}
