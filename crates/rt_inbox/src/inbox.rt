//! The inbox, and how it is made with its owner and its notifiers.
ghost use Rattle.std.specs.Prelude.{◌≡◌, ◌≤◌, ◌^◌, [], length, All, IfOk};
ghost use Rattle.crossbeam_queue.specs.SegTies.{IsSegPassOf};
ghost use Rattle.rt_inbox.specs.declared.view.View.TheVariants.{Owning};
ghost use Rattle.rt_inbox.specs.Ends.{IsNotifierOf, IsOwnerOf, IsMade, AreNumbered, EachAt};
ghost use Rattle.rt_inbox.specs.Ends.{nones_of, posters_of, posts_of, taken_of};

use crate::line::{Line, OwnerSeat, make, open};
use crate::notifier::Notifier;
use crate::owner::Owner;
use rt_values::{List, OutOfMemory};
use std::alloc::Global;

/// The queue into which posters post and from which the owner takes. Threads share it by reference.
pub struct Inbox {
    pub(crate) line: Line,
    pub(crate) posters: u64,
}

impl Drop for Inbox {
    fn drop(self) {
        let Inbox { line, posters: _ } = self;
        line.destroy();
    }
}

impl Inbox {
    /// An empty inbox with its owner, and a notifier for each poster, numbered from 0 on.
    pub fn new(alloc: Global, posters: u64) -> Result<(Inbox, Owner, List<Notifier>), OutOfMemory>
        requires some { 1 ≤ posters }
        requires few { posters ≤ 2 ^ 20 }
        ensures posters { IfOk result (λ r. (posters_of r.0 ≡ posters) × (length r.2 ≡ posters)) }
        ensures owner { IfOk result (λ r. IsOwnerOf r.0 r.1) }
        ensures untouched { IfOk result (λ r. (taken_of r.1 ≡ []) × (nones_of r.1 ≡ 0)) }
        ensures notifiers { IfOk result (λ r. All (IsNotifierOf r.0) r.2) }
        ensures numbers { IfOk result (λ r. AreNumbered r.2) }
        ensures nothing_posted { IfOk result (λ r. All (λ n. posts_of n ≡ []) r.2) }
    {
        let (line, mut seat) = open(alloc)?;
        let inbox = Inbox { line, posters };
        let notifiers = make_all(alloc, &inbox, &mut seat)?;
        let owner = Owner {
            seat,
            taken: Vec::new(alloc),
        };
        Ok((inbox, owner, List::from_vec(notifiers)))
    }
}

// Makes the posters' passes, one after another.
fn make_all(
    alloc: Global,
    inbox: &Inbox,
    owner: &mut OwnerSeat,
) -> Result<Vec<Notifier>, OutOfMemory>
    requires own { IsSegPassOf inbox.now.line owner.old.pass }
    requires first { owner.old.pass.me.view.client ≡ Owning [] 0 [] }
    ensures own { IfOk result (λ r. IsSegPassOf inbox.now.line owner.new.pass) }
    ensures owner { IfOk result
        (λ r. owner.new.pass.me.view.client ≡ Owning [] (posters_of inbox.now) []) }
    ensures nones { IfOk result (λ r. owner.new.nones ≡ owner.old.nones) }
    ensures count { IfOk result (λ r. length r.items ≡ posters_of inbox.now) }
    ensures each { IfOk result (λ r. EachAt (IsMade inbox.now) r.items) }
{
    let posters = inbox.posters;
    let mut notifiers = Vec::with_capacity(alloc, posters as usize)?;
    for number in 0..posters {
        let pass = make(&inbox.line, owner);
        notifiers.push_reserved(Notifier {
            pass,
            number,
            accepted: Vec::new(alloc),
        });
    }
    Ok(notifiers)
}
