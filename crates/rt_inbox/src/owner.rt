//! The owner's end: it takes messages, and keeps what it took.
ghost use Rattle.std.specs.Prelude.{◌≡◌, ◌<◌, ◌≤◌, ◌+◌, ◌-◌, ◌^◌, ◌++◌, ◌∷◌, ◌↔◌, [], length, false};
ghost use Rattle.std.specs.Prelude.{vec_capacity, vec_len, IfNone, IfOk, IfSome, IsTrue, OnErr};
ghost use Rattle.rt_inbox.specs.Ends.{IsOwnerOf, nones_of, taken_of};

use crate::inbox::Inbox;
use crate::line::{OwnerSeat, pop_counted};
use crate::message::{Drained, Msg};
use rt_values::{List, OutOfMemory};
use std::alloc::Global;
use std::sync::Wait;

/// Takes messages out of its inbox, and keeps those that it took. Its pass counts the pops that
/// found none.
#[derive(Drop)]
pub struct Owner {
    pub(crate) seat: OwnerSeat,
    pub(crate) taken: Vec<Msg>,
}

impl Owner {
    // Takes the message at the front, or counts that there was none.
    fn take<R: Wait>(&mut self, rt: &R, inbox: &Inbox) -> Option<Msg>
        requires own { IsOwnerOf inbox.now self.old }
        requires room { vec_len self.old.taken < vec_capacity self.old.taken }
        requires countable { nones_of self.old < 2 ^ 64 - 1 }
        ensures own { IsOwnerOf inbox.now self.new }
        ensures some { IfSome result (λ m. (taken_of self.new ≡ taken_of self.old ++ m ∷ [])
            × (nones_of self.new ≡ nones_of self.old)) }
        ensures none { IfNone result ((taken_of self.new ≡ taken_of self.old)
            × (nones_of self.new ≡ nones_of self.old + 1)) }
        ensures capacity { vec_capacity self.new.taken ≡ vec_capacity self.old.taken }
    {
        let message = pop_counted(rt, &inbox.line, &mut self.seat)?;
        self.taken.push_reserved(message);
        Some(message)
    }

    /// Takes messages from the front, at most so many. The memory for them is taken first, so that
    /// after a refusal nothing was taken.
    pub fn drain<R: Wait>(
        &mut self,
        rt: &R,
        alloc: Global,
        inbox: &Inbox,
        most: u64,
    ) -> Result<Drained, OutOfMemory>
        requires own { IsOwnerOf inbox.now self.old }
        ensures own { IsOwnerOf inbox.now self.new }
        ensures taken { IfOk result (λ d. taken_of self.new ≡ taken_of self.old ++ d.messages) }
        ensures most { IfOk result (λ d. (length d.messages ≤ most)
            × (d.emptied ≡ false → length d.messages ≡ most)) }
        ensures emptied { IfOk result
            (λ d. IsTrue d.emptied ↔ (nones_of self.old < nones_of self.new)) }
        ensures counted { IfOk result (λ d. (nones_of self.old ≤ nones_of self.new)
            × (nones_of self.new ≤ nones_of self.old + 1)) }
        ensures err { OnErr result ((taken_of self.new ≡ taken_of self.old)
            × (nones_of self.new ≡ nones_of self.old)) }
    {
        // A count that could not rise would say of no pop that it found none.
        if self.seat.nones() == u64::MAX {
            return Err(OutOfMemory);
        }
        self.taken.reserve(most as usize)?;
        let mut messages = Vec::with_capacity(alloc, most as usize)?;
        for _ in 0..most {
            let Some(message) = self.take(rt, inbox) else {
                return Ok(drained(messages, true));
            };
            messages.push_reserved(message);
        }
        Ok(drained(messages, false))
    }
}

// What a drain answers.
fn drained(messages: Vec<Msg>, emptied: bool) -> Drained
    ensures messages { result.messages ≡ messages.items }
    ensures emptied { result.emptied ≡ emptied }
{
    Drained {
        messages: List::from_vec(messages),
        emptied,
    }
}
