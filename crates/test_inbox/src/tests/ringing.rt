//! A bell between posters and an owner that sleeps where nothing is to take: no post is missed.
ghost use Rattle.std.specs.Prelude.{◌≡◌};
ghost use Rattle.rt_inbox.specs.Ends.{IsOwnerOf};
ghost use Rattle.rt_inbox.specs.Posted.{AllReady};

use super::posters::two_posters;
use rt_inbox::{Bell, Inbox, Owner, Poster, post_beside};
use std::alloc::Global;
use std::process::Abort;
use std::sync::Wait;
use std::thread::Threads;
use std::time::{Clock, Duration, Instant};

/// An owner that misses a post sleeps so many seconds.
const LONG: u64 = 20;

/// An owner that misses none drains less often.
const DRAINS: u64 = 40;

/// Takes six messages, and sleeps where none is there and some are to come. How many it took.
fn take_six<R: Wait + Abort>(
    rt: &R,
    alloc: Global,
    inbox: &Inbox,
    bell: &Bell,
    owner: &mut Owner,
) -> u64
    requires own { IsOwnerOf inbox.now owner.old }
    ensures own { IsOwnerOf inbox.now owner.new }
{
    let mut taken = 0u64;
    for _drain in 0..DRAINS {
        if taken >= 6 {
            return taken;
        }
        let rung = bell.rung();
        let drained = owner.drain(rt, alloc, inbox, 2);
        let drained = drained.expect(rt, "memory for a drain");
        taken = taken.saturating_add(drained.messages.len() as u64);
        if drained.emptied && taken < 6 {
            bell.wait(rt, rung, Duration::from_secs(LONG));
        }
    }
    taken
}

/// The posters post in threads of their own, and ring, while the owner takes in this one.
fn take_beside<R: Threads + Wait + Sync + Abort>(
    rt: &R,
    alloc: Global,
    inbox: &Inbox,
    bell: &Bell,
    posters: &mut [Poster],
    owner: &mut Owner,
) -> u64
    requires own { IsOwnerOf inbox.now owner.old }
    requires ready { AllReady inbox.now posters.old }
{
    post_beside(
        rt,
        inbox,
        bell,
        posters,
        &mut || -> u64
            requires { IsOwnerOf inbox.now owner.now }
            ensures { IsOwnerOf inbox.entry.now owner.exit.now }
        { take_six(rt, alloc, inbox, bell, owner) },
    )
}

/// Whether less time has gone by than a missed post would cost.
fn is_soon<C: Clock + Abort>(clock: &C, begun: Instant) -> bool {
    begun.elapsed(clock).expect(clock, "the time") < Duration::from_secs(LONG)
}

#[test]
fn an_owner_that_sleeps_misses_no_post(rt: HostRuntime) {
    let alloc = rt.alloc();
    let (inbox, mut owner, mut posters) = two_posters(&rt, alloc);
    let bell = Bell::new();
    let begun = Instant::now(&rt).expect(&rt, "the time");
    let posters = posters.as_mut_slice();
    let taken = take_beside(&rt, alloc, &inbox, &bell, posters, &mut owner);
    assert_eq!(rt; taken, 6);
    assert_eq!(rt; bell.rung(), 6);
    assert!(rt; is_soon(&rt, begun), "no post is missed");
}

/// The posters post, and ring, and nothing else is done.
fn post_all<R: Threads + Wait + Sync>(rt: &R, inbox: &Inbox, bell: &Bell, posters: &mut [Poster])
    requires ready { AllReady inbox.now posters.old }
{
    post_beside(rt, inbox, bell, posters, &mut || ());
}

#[test]
fn a_post_between_the_look_and_the_sleep_is_not_missed(rt: HostRuntime) {
    let alloc = rt.alloc();
    let (inbox, _owner, mut posters) = two_posters(&rt, alloc);
    let bell = Bell::new();
    let begun = Instant::now(&rt).expect(&rt, "the time");
    let rung = bell.rung();
    post_all(&rt, &inbox, &bell, posters.as_mut_slice());
    bell.wait(&rt, rung, Duration::from_secs(LONG));
    assert_eq!(rt; rung, 0);
    assert!(rt; is_soon(&rt, begun), "no post is missed");
}
