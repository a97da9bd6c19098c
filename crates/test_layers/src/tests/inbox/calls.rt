//! Calls of an inbox of two posters, each with its condition asserted.
ghost use Rattle.std.specs.Prelude.{◌≡◌, ◌+◌};
ghost use Rattle.rt_inbox.specs.Ends.{IsNotifierOf, IsOwnerOf, number_of, posters_of};

use rt_inbox::{Drained, Inbox, Msg, Notifier, Owner, Post, Taken, finish};
use rt_values::{List, ScopeId, Task};
use std::alloc::Global;
use std::process::Abort;
use std::sync::Wait;

pub(crate) fn mark(scope: u64) -> Post {
    Post::Mark(ScopeId(scope))
}

pub(crate) fn wake(task: u64) -> Post {
    Post::Wake(Task(task))
}

pub(crate) fn msg(poster: u64, seq: u64, what: Post) -> Msg {
    Msg { poster, seq, what }
}

/// An inbox of two posters, with its owner and its two notifiers.
pub(crate) fn two_posters(rt: &impl Abort, alloc: Global) -> (Inbox, Owner, Notifier, Notifier)
    ensures posters { posters_of result.0 ≡ 2 }
    ensures owner { IsOwnerOf result.0 result.1 }
    ensures first { IsNotifierOf result.0 result.2 × (number_of result.2 ≡ 0) }
    ensures second { IsNotifierOf result.0 result.3 × (number_of result.3 ≡ 1) }
{
    let (inbox, owner, notifiers) = Inbox::new(alloc, 2).expect(rt, "memory for an inbox");
    let mut notifiers = notifiers.into_vec();
    let second = notifiers.pop().expect(rt, "the second notifier");
    let first = notifiers.pop().expect(rt, "the first notifier");
    (inbox, owner, first, second)
}

/// Posts what is accepted.
pub(crate) fn post<R: Wait + Abort>(rt: &R, inbox: &Inbox, notifier: &mut Notifier, what: Post)
    requires own { IsNotifierOf inbox.now notifier.old }
    ensures own { IsNotifierOf inbox.now notifier.new }
    ensures number { number_of notifier.new ≡ number_of notifier.old }
{
    let before = notifier.accepted();
    assert!(rt; before < 1 << 40, "few posts");
    assert!(rt;
        notifier.post(rt, inbox, what).is_ok(),
        "the post is accepted"
    );
    assert_eq!(rt; notifier.accepted(), before + 1);
}

/// Takes at most so many messages.
pub(crate) fn drain<R: Wait + Abort>(
    rt: &R,
    alloc: Global,
    inbox: &Inbox,
    owner: &mut Owner,
    most: u64,
) -> Drained
    requires own { IsOwnerOf inbox.now owner.old }
    ensures own { IsOwnerOf inbox.now owner.new }
{
    owner
        .drain(rt, alloc, inbox, most)
        .expect(rt, "memory for a drain")
}

/// Asserts what a drain took, and whether it found none.
pub(crate) fn took(rt: &impl Abort, drained: &Drained, messages: &[Msg], emptied: bool) {
    assert_eq!(rt; drained.messages.as_slice(), messages);
    assert_eq!(rt; drained.emptied, emptied);
}

/// Ends an inbox whose notifiers come back in either order.
pub(crate) fn end<R: Wait + Abort>(
    rt: &R,
    alloc: Global,
    inbox: Inbox,
    owner: Owner,
    one: Notifier,
    other: Notifier,
) -> Taken
    requires posters { posters_of inbox ≡ 2 }
    requires owner { IsOwnerOf inbox owner }
    requires own { IsNotifierOf inbox one × IsNotifierOf inbox other }
    requires apart { number_of one + number_of other ≡ 1 }
{
    let mut notifiers = List::new(alloc);
    notifiers.push(one).expect(rt, "memory for a notifier");
    notifiers.push(other).expect(rt, "memory for a notifier");
    let ended = finish(rt, alloc, inbox, owner, notifiers);
    assert!(rt; ended.is_ok(), "memory for the end");
    ended.ok().expect(rt, "the end")
}
