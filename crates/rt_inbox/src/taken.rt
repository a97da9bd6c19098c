//! The end of an inbox: what was taken, what is left, and what each poster's accepted posts were.
ghost use Rattle.std.specs.Prelude.{◌≡◌, ℕ, ◌<◌, ◌≤◌, ◌+◌, ◌++◌, [], length, map, replicate};
ghost use Rattle.std.specs.Prelude.{slice_set, vec_capacity, vec_len, All, Contains, IfErr, IfOk, IfSome};
ghost use Rattle.std.specs.Prelude.{List as Items};
ghost use Rattle.crossbeam_queue.specs.SegTies.{IsSegPassOf};
ghost use Rattle.rt_inbox.specs.declared.message.Post.{Post};
ghost use Rattle.rt_inbox.specs.declared.view.View.TheVariants.{Owning, Posting};
ghost use Rattle.rt_inbox.specs.Merge.{IsMerge};
ghost use Rattle.rt_inbox.specs.Rule.{entries, made_in, taken_in, times, Owns, WasAt};
ghost use Rattle.rt_inbox.specs.Ends.{IsNotifierOf, IsOwnerOf, number_of, posters_of, posts_of};
ghost use Rattle.rt_inbox.specs.Ends.{taken_of};
ghost use Rattle.rt_inbox.specs.Ends.{accepted_lists, left_list, taken_list};
ghost use Rattle.rt_inbox.specs.Gathered.{accepted_in, count_in, each_entry, IsFiled, IsKept};
ghost use Rattle.rt_inbox.specs.Gathered.{HasEach};

use crate::inbox::Inbox;
use crate::line::{Line, Seat, join, pop};
use crate::message::{Msg, Post};
use crate::notifier::Notifier;
use crate::owner::Owner;
use rt_values::{List, OutOfMemory};
use std::alloc::Global;
use std::sync::Wait;

/// What an inbox came to. Only `finish` makes one.
#[derive(Debug, Drop)]
pub struct Taken {
    taken: Vec<Msg>,
    left: Vec<Msg>,
    accepted: Vec<List<Post>>,
}

impl Taken {
    /// The messages that the owner took, in order.
    pub fn taken(&self) -> &[Msg]
        ensures taken { result.now ≡ taken_list self.now }
    {
        self.taken.as_slice()
    }

    /// The messages that the owner had not taken, in order.
    pub fn left(&self) -> &[Msg]
        ensures left { result.now ≡ left_list self.now }
    {
        self.left.as_slice()
    }

    /// The accepted posts of each poster, by its number.
    pub fn accepted(&self) -> &[List<Post>]
        ensures accepted { result.now ≡ accepted_lists self.now }
    {
        self.accepted.as_slice()
    }
}

/// Ends an inbox. The memory is taken first: a refusal hands everything back as it was.
pub fn finish<R: Wait>(
    rt: &R,
    alloc: Global,
    inbox: Inbox,
    owner: Owner,
    notifiers: List<Notifier>,
) -> Result<Taken, (Inbox, Owner, List<Notifier>)>
    requires owner { IsOwnerOf inbox owner }
    requires own { All (IsNotifierOf inbox) notifiers }
    requires all { HasEach (posters_of inbox) notifiers }
    ensures taken { IfOk result (λ t. taken_list t ≡ taken_of owner) }
    ensures merged { IfOk result (λ t. IsMerge (taken_list t ++ left_list t) (accepted_lists t)) }
    ensures posters { IfOk result (λ t. length (accepted_lists t) ≡ posters_of inbox) }
    ensures accepted { IfOk result (λ t. All (IsKept (accepted_lists t)) notifiers) }
    ensures refused { IfErr result
        (λ back. (back.0 ≡ inbox) × (back.1 ≡ owner) × (back.2 ≡ notifiers)) }
{
    let posters = inbox.posters;
    let taken = owner.taken.len();
    let Ok((left, accepted)) = room(alloc, posters, taken, notifiers.as_slice()) else {
        return Err((inbox, owner, notifiers));
    };
    Ok(gather(rt, &inbox, owner, notifiers.into_vec(), left, accepted))
}

// The memory for what is left, and an empty list for each poster.
fn room(
    alloc: Global,
    posters: u64,
    taken: usize,
    notifiers: &[Notifier],
) -> Result<(Vec<Msg>, Vec<List<Post>>), OutOfMemory>
    ensures left { IfOk result (λ r. (r.0.items ≡ [])
        × (count_in notifiers.now ≤ taken + vec_capacity r.0)) }
    ensures accepted { IfOk result (λ r. r.1.items ≡ replicate posters []) }
{
    let Some(posted) = posted(notifiers) else {
        return Err(OutOfMemory);
    };
    let left = Vec::with_capacity(alloc, posted.saturating_sub(taken))?;
    Ok((left, nothing_of_each(alloc, posters)?))
}

// How many posts were accepted in all, or `None` where so many are more than memory can hold.
fn posted(notifiers: &[Notifier]) -> Option<usize>
    ensures count { IfSome result (λ count. count ≡ count_in notifiers.now) }
{
    let mut count: usize = 0;
    for notifier in notifiers {
        count = count.checked_add(notifier.accepted.len())?;
    }
    Some(count)
}

// An empty list for each poster.
fn nothing_of_each(alloc: Global, posters: u64) -> Result<Vec<List<Post>>, OutOfMemory>
    ensures empty { IfOk result (λ r. r.items ≡ replicate posters []) }
{
    let mut lists = Vec::with_capacity(alloc, posters as usize)?;
    for _ in 0..posters {
        lists.push_reserved(List::new(alloc));
    }
    Ok(lists)
}

// Joins all passes, files the accepted posts by number, and takes what is left.
fn gather<R: Wait>(
    rt: &R,
    inbox: &Inbox,
    owner: Owner,
    notifiers: Vec<Notifier>,
    left: Vec<Msg>,
    accepted: Vec<List<Post>>,
) -> Taken
    requires owner { IsOwnerOf inbox.now owner }
    requires own { All (IsNotifierOf inbox.now) notifiers.items }
    requires all { HasEach (posters_of inbox.now) notifiers.items }
    requires posters { length accepted.items ≡ posters_of inbox.now }
    requires room { (left.items ≡ [])
        × (count_in notifiers.items ≤ vec_len owner.taken + vec_capacity left) }
    ensures taken { taken_list result ≡ taken_of owner }
    ensures merged { IsMerge (taken_list result ++ left_list result) (accepted_lists result) }
    ensures posters { length (accepted_lists result) ≡ posters_of inbox.now }
    ensures accepted { All (IsKept (accepted_lists result)) notifiers.items }
{
    let Owner { seat, taken } = owner;
    let mut pass = seat.into_pass();
    let accepted = join_all(inbox, &mut pass, notifiers, accepted);
    let left = take_left(rt, &inbox.line, &mut pass, left);
    Taken {
        taken,
        left,
        accepted,
    }
}

// Joins each pass to the owner's, and files its accepted posts under its number.
fn join_all(
    inbox: &Inbox,
    owner: &mut Seat,
    mut notifiers: Vec<Notifier>,
    mut accepted: Vec<List<Post>>,
) -> Vec<List<Post>>
    requires owner { IsSegPassOf inbox.now.line owner.old }
    requires owns { Owns owner.old.me.view.client }
    requires none_joined { entries owner.old.me.view.client ≡ [] }
    requires own { All (IsNotifierOf inbox.now) notifiers.items }
    requires posters { length accepted.items ≡ posters_of inbox.now }
    ensures own { IsSegPassOf inbox.now.line owner.new }
    ensures owner { owner.new.me.view.client ≡ Owning (taken_in owner.old.me.view.client)
        (made_in owner.old.me.view.client) (each_entry notifiers.items) }
    ensures filed { IsFiled result.items (each_entry notifiers.items) }
    ensures posters { length result.items ≡ posters_of inbox.now }
{
    while let Some(notifier) = notifiers.pop() {
        let Notifier {
            pass,
            number,
            accepted: posts,
        } = notifier;
        join(&inbox.line, owner, pass);
        accepted[number as usize] = List::from_vec(posts);
    }
    accepted
}

// Takes messages up to a pop that finds none.
fn take_left<R: Wait>(rt: &R, line: &Line, owner: &mut Seat, mut left: Vec<Msg>) -> Vec<Msg>
    requires own { IsSegPassOf line.now owner.old }
    requires owns { Owns owner.old.me.view.client }
    requires all { (p : ℕ) → p < made_in owner.old.me.view.client
        → 0 < times p (entries owner.old.me.view.client) }
    requires room { (left.items ≡ []) × (accepted_in (entries owner.old.me.view.client)
        ≤ length (taken_in owner.old.me.view.client) + vec_capacity left) }
    ensures owner { owner.new.me.view.client
        ≡ Owning (taken_in owner.old.me.view.client ++ result.items)
        (made_in owner.old.me.view.client) (entries owner.old.me.view.client) }
    ensures none { WasAt [] owner.new.me.view.client }
{
    for _ in rt.forever() {
        let Some(message) = pop(rt, line, owner) else {
            return left;
        };
        left.push_reserved(message);
    }
    unreachable!()
}
