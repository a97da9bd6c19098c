//! Threads overlap: each waits for what another does, and both must be seen.
ghost use Rattle.std.specs.Prelude.{◌≡◌, ◌≤◌, length};
ghost use Rattle.rt_inbox.specs.Ends.{IsOwnerOf};
ghost use Rattle.rt_inbox.specs.Posted.{AllReady, AllPosted};

use rt_inbox::{Gate, Inbox, Owner, Post, Poster, meet, post_beside, posters_for};
use rt_values::{List, ScopeId};
use std::alloc::Global;
use std::process::Abort;
use std::sync::Wait;
use std::sync::atomic::Ordering::SeqCst;
use std::sync::atomic::{AtomicBool, AtomicU64};
use std::thread::{Threads, yield_now};

/// A wait takes at most so many turns.
const TURNS: u64 = 10_000_000;

/// Waits until the flag is set. Whether it was seen in time.
fn is_seen(flag: &AtomicBool) -> bool {
    for _turn in 0..TURNS {
        if flag.load(SeqCst) {
            return true;
        }
        yield_now();
    }
    false
}

/// Two sides that wait for one another.
#[derive(Drop)]
struct Sides {
    one: AtomicBool,
    other: AtomicBool,
    /// How many of them saw the other.
    met: AtomicU64,
}

impl Sides {
    fn new() -> Sides {
        Sides {
            one: AtomicBool::new(false),
            other: AtomicBool::new(false),
            met: AtomicU64::new(0),
        }
    }

    /// Waits for a side, and counts that it was seen.
    fn wait(&self, side: &AtomicBool) {
        if is_seen(side) {
            self.met.fetch_add(1, SeqCst);
        }
    }
}

/// The first post of each of two posters waits for that of the other.
#[derive(Drop)]
struct BothWait {
    sides: Sides,
}

impl Gate for BothWait {
    fn before(&self, poster: u64, seq: u64) {
        if seq != 0 {
            return;
        }
        if poster == 0 {
            self.sides.one.store(true, SeqCst);
            self.sides.wait(&self.sides.other);
        } else {
            self.sides.other.store(true, SeqCst);
            self.sides.wait(&self.sides.one);
        }
    }

    fn after(&self, _poster: u64, _seq: u64) {}
}

/// The first post of the first poster waits for the owner, and the owner until it was made.
#[derive(Drop)]
struct OwnerWaits {
    sides: Sides,
}

impl OwnerWaits {
    fn come(&self) {
        self.sides.one.store(true, SeqCst);
        self.sides.wait(&self.sides.other);
    }
}

impl Gate for OwnerWaits {
    fn before(&self, poster: u64, seq: u64) {
        if poster == 0 && seq == 0 {
            self.sides.wait(&self.sides.one);
        }
    }

    fn after(&self, poster: u64, seq: u64) {
        if poster == 0 && seq == 0 {
            self.sides.other.store(true, SeqCst);
        }
    }
}

/// Three marks of one scope.
fn three_marks(rt: &impl Abort, alloc: Global) -> List<Post>
    ensures few { length result ≤ 1000000 }
{
    let mark = Post::Mark(ScopeId(3));
    let mut posts = List::new(alloc);
    posts.push(mark).expect(rt, "memory for a post");
    posts.push(mark).expect(rt, "memory for a post");
    posts.push(mark).expect(rt, "memory for a post");
    posts
}

/// A new inbox with its owner, and two posters that are to post three marks each.
pub(crate) fn two_posters(rt: &impl Abort, alloc: Global) -> (Inbox, Owner, Vec<Poster>)
    ensures owner { IsOwnerOf result.0 result.1 }
    ensures ready { AllReady result.0 result.2.items }
{
    let (inbox, owner, notifiers) = Inbox::new(alloc, 2).expect(rt, "memory for an inbox");
    let mut posts = List::new(alloc);
    posts
        .push(three_marks(rt, alloc))
        .expect(rt, "memory for a list");
    posts
        .push(three_marks(rt, alloc))
        .expect(rt, "memory for a list");
    let posters = posters_for(alloc, notifiers, posts.as_slice());
    let posters = posters.expect(rt, "memory for the posters");
    (inbox, owner, posters.into_vec())
}

#[test]
fn two_posters_meet(rt: HostRuntime) {
    let alloc = rt.alloc();
    let (inbox, mut owner, mut posters) = two_posters(&rt, alloc);
    let gate = BothWait {
        sides: Sides::new(),
    };
    let mut drains = List::new(alloc);
    let ended = meet(
        &rt,
        alloc,
        &inbox,
        &gate,
        posters.as_mut_slice(),
        &mut owner,
        &mut drains,
        2,
        6,
    );
    assert!(rt; ended.is_ok(), "memory for the drains");
    assert_eq!(rt; gate.sides.met.load(SeqCst), 2);
    for poster in &posters {
        assert!(rt; poster.accepted, "each post is accepted");
    }
    for drain in drains.as_slice() {
        assert!(rt;
            drain.len() == 1 || drain.len() == 2,
            "a drain of one or two"
        );
    }
}

/// The posters post in threads of their own, while the owner's side comes in this one.
fn post_while<R: Threads + Wait + Sync>(
    rt: &R,
    inbox: &Inbox,
    gate: &OwnerWaits,
    posters: &mut [Poster],
)
    requires ready { AllReady inbox.now posters.old }
{
    post_beside(rt, inbox, gate, posters, &mut || gate.come());
}

#[test]
fn owner_and_poster_meet(rt: HostRuntime) {
    let alloc = rt.alloc();
    let (inbox, _owner, mut posters) = two_posters(&rt, alloc);
    let gate = OwnerWaits {
        sides: Sides::new(),
    };
    post_while(&rt, &inbox, &gate, posters.as_mut_slice());
    assert_eq!(rt; gate.sides.met.load(SeqCst), 2);
}
