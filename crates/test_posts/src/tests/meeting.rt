//! Posters overlap with one another, and with the application's calls.

ghost use Rattle.std.specs.Prelude.{◌≡◌, ◌≤◌, length, All};

use super::reports::two_lists;
use rt_edits::NoOpMutations;
use rt_inbox::{Gate, Post};
use rt_session::{Limits, session_posted};
use rt_values::{List, ScopeId};
use std::alloc::Global;
use std::process::Abort;
use std::sync::Arc;
use std::sync::atomic::AtomicU64;
use std::sync::atomic::Ordering::SeqCst;
use test_waiting::{Held, Kinds, Waiting};

const LIMITS: Limits = Limits {
    units: 10_000,
    height: 128,
    drain: 2,
};

/// The first post of each of two posters waits for that of the other.
#[derive(Drop)]
struct BothWait {
    first: Held,
    second: Held,
    met: AtomicU64,
}

impl Gate for BothWait {
    fn before(&self, poster: u64, seq: u64) {
        if seq != 0 {
            return;
        }
        let (own, other) = if poster == 0 {
            (&self.first, &self.second)
        } else {
            (&self.second, &self.first)
        };
        own.come();
        if other.is_seen() {
            self.met.fetch_add(1, SeqCst);
        }
    }

    fn after(&self, _poster: u64, _seq: u64) {}
}

/// Each post of the first poster waits for its kind of call, which waits until the post was made.
#[derive(Drop)]
struct CallsWait {
    kinds: Arc<Kinds>,
}

impl Gate for CallsWait {
    fn before(&self, poster: u64, seq: u64) {
        if poster == 0 {
            self.kinds.as_ref().wait_for_call(seq);
        }
    }

    fn after(&self, poster: u64, seq: u64) {
        if poster == 0 {
            self.kinds.as_ref().tell_posted(seq);
        }
    }
}

#[test]
fn two_posters_meet(rt: HostRuntime) {
    let alloc = rt.alloc();
    let kinds = Arc::new(alloc, Kinds::free()).expect(&rt, "memory for flags");
    let app = Waiting { kinds };
    let gate = BothWait {
        first: Held::new(),
        second: Held::new(),
        met: AtomicU64::new(0),
    };
    let lists = two_lists(&rt, alloc);
    let mut sink = NoOpMutations;
    let posted = session_posted(&rt, alloc, app, 0, lists, &gate, &mut sink, LIMITS);
    assert!(rt; posted.is_ok(), "memory for a session");
    assert_eq!(rt; gate.met.load(SeqCst), 2);
}

#[test]
fn owner_and_poster_meet(rt: HostRuntime) {
    let alloc = rt.alloc();
    let kinds = Arc::new(alloc, Kinds::of_bodies()).expect(&rt, "memory for flags");
    let app = Waiting {
        kinds: kinds.clone().expect(&rt, "memory for flags"),
    };
    let gate = CallsWait { kinds };
    let lists = two_lists(&rt, alloc);
    let mut sink = NoOpMutations;
    let posted = session_posted(&rt, alloc, app, 0, lists, &gate, &mut sink, LIMITS);
    assert!(rt; posted.is_ok(), "memory for a session");
    assert!(rt;
        gate.kinds.as_ref().is_body_met(),
        "the root's body, and the first post, which waited for it"
    );
}

/// Two lists, of which the first has a post for each kind of call.
fn four_lists(rt: &impl Abort, alloc: Global) -> List<List<Post>>
    ensures two { length result ≡ 2 }
    ensures short { All (λ list. length list ≤ 1000000) result }
{
    let mut lists = List::new(alloc);
    lists
        .push(four_marks(rt, alloc))
        .expect(rt, "memory for a list");
    lists
        .push(four_marks(rt, alloc))
        .expect(rt, "memory for a list");
    lists
}

/// Four marks of a scope that isn't there.
fn four_marks(rt: &impl Abort, alloc: Global) -> List<Post>
    ensures few { length result ≤ 1000000 }
{
    let mark = Post::Mark(ScopeId(1_000));
    let mut posts = List::new(alloc);
    posts.push(mark).expect(rt, "memory for a post");
    posts.push(mark).expect(rt, "memory for a post");
    posts.push(mark).expect(rt, "memory for a post");
    posts.push(mark).expect(rt, "memory for a post");
    posts
}

#[test]
fn post_during_each_call(rt: HostRuntime) {
    let alloc = rt.alloc();
    let kinds = Arc::new(alloc, Kinds::new()).expect(&rt, "memory for flags");
    let app = Waiting {
        kinds: kinds.clone().expect(&rt, "memory for flags"),
    };
    let gate = CallsWait { kinds };
    let lists = four_lists(&rt, alloc);
    let mut sink = NoOpMutations;
    let posted = session_posted(&rt, alloc, app, 0, lists, &gate, &mut sink, LIMITS);
    assert!(rt; posted.is_ok(), "memory for a session");
    assert!(rt;
        gate.kinds.as_ref().are_met(),
        "a body, a poll, an effect and a clean-up, each with a post that waited for it"
    );
}
