//! What is done in this thread beside the posters in theirs: the caller's part, or the owner's drains.
ghost use Rattle.std.specs.Prelude.{◌≡◌, ◌≤◌, ◌++◌, [], length, OnOk, IfOk};
ghost use Rattle.std.specs.Thread.{IsSync};
ghost use Rattle.rt_inbox.specs.Ends.{IsOwnerOf, taken_of};
ghost use Rattle.rt_inbox.specs.Posted.{AllReady, AllPosted, IsReady, HasPosted, joined, HasDrained, Drains};

use crate::gate::Gate;
use crate::inbox::Inbox;
use crate::message::{Drained, Msg};
use crate::owner::Owner;
use crate::posters::{Poster, post_lists};
use rt_values::{List, OutOfMemory};
use std::alloc::Global;
use std::sync::Wait;
use std::thread::{Threads, join_mut};

/// So many drains that found nothing end the owner's part.
const NONES: u64 = 1000;

/// Drains at most so many messages at a time, until the wanted number was taken or too many drains
/// found nothing. Each drain that took messages is kept.
fn drain_all<R: Wait>(
    rt: &R,
    alloc: Global,
    inbox: &Inbox,
    owner: &mut Owner,
    drains: &mut List<List<Msg>>,
    most: u64,
    wanted: u64,
) -> Result<(), OutOfMemory>
    requires own { IsOwnerOf inbox.now owner.old }
    ensures own { IsOwnerOf inbox.now owner.new }
    ensures drained { OnOk result (HasDrained owner.old owner.new drains.old drains.new) }
{
    let mut taken = 0u64;
    let mut nones = 0u64;
    for _ in rt.forever() {
        if taken >= wanted || nones >= NONES {
            return Ok(());
        }
        let Drained {
            messages,
            emptied: _,
        } = owner.drain(rt, alloc, inbox, most)?;
        if messages.is_empty() {
            nones = nones.saturating_add(1);
        } else {
            taken = taken.saturating_add(messages.len() as u64);
            drains.push(messages)?;
        }
    }
    unreachable!()
}

/// The posters post in threads of their own, while the caller's part is done in this one, once. It
/// comes back once both are done, with what the part answered. Where no thread can be started at all
/// the lists are posted behind the part, so a part that waits for a post must give up some time.
pub fn post_beside<R: Threads + Wait + Sync, G: Gate, X, F: FnMut() -> X>(
    rt: &R,
    inbox: &Inbox,
    gate: &G,
    posters: &mut [Poster],
    part: &mut F,
) -> X
    requires ready { AllReady inbox.now posters.old }
    requires part { F.pre part.old }
    ensures posted { AllPosted inbox.now posters.old posters.new }
    // The part is called once, by its own contract.
    ensures done { F.step part.old result part.new }
{
    let (_, answer) = join_mut(
        rt,
        &mut ||
            requires { IsSync R.row × AllReady inbox.now posters.now }
            ensures { AllPosted inbox.entry.now posters.entry.now posters.exit.now }
        { post_lists(rt, inbox, gate, posters) },
        part,
    );
    answer
}

/// The posters post in threads of their own while the owner drains in this one. It comes back once
/// both are done. Where no thread can be started at all the lists are posted behind the drains, so
/// that they are what is left.
pub fn meet<R: Threads + Wait + Sync, G: Gate>(
    rt: &R,
    alloc: Global,
    inbox: &Inbox,
    gate: &G,
    posters: &mut [Poster],
    owner: &mut Owner,
    drains: &mut List<List<Msg>>,
    most: u64,
    wanted: u64,
) -> Result<(), OutOfMemory>
    requires own { IsOwnerOf inbox.now owner.old }
    requires ready { AllReady inbox.now posters.old }
    ensures own { IsOwnerOf inbox.now owner.new }
    ensures posted { AllPosted inbox.now posters.old posters.new }
    ensures drained { OnOk result (HasDrained owner.old owner.new drains.old drains.new) }
{
    post_beside(
        rt,
        inbox,
        gate,
        posters,
        &mut || -> Result<(), OutOfMemory>
            requires { IsOwnerOf inbox.now owner.now }
            ensures { Drains inbox.entry.now owner.entry.now owner.exit.now drains.entry.now drains.exit.now result }
        { drain_all(rt, alloc, inbox, owner, drains, most, wanted) },
    )
}
