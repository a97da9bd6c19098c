//! Flags by which calls and posts wait for one another, each wait with a limit.

use std::sync::atomic::AtomicBool;
use std::sync::atomic::Ordering::SeqCst;
use std::thread::yield_now;

/// A wait takes at most so many turns.
const TURNS: u64 = 10_000_000;

/// A flag that others wait for.
#[derive(Drop)]
pub struct Held {
    flag: AtomicBool,
}

impl Held {
    /// One that isn't set.
    pub fn new() -> Held {
        Held {
            flag: AtomicBool::new(false),
        }
    }

    /// Sets it.
    pub fn come(&self) {
        self.flag.store(true, SeqCst);
    }

    fn is_set(&self) -> bool {
        self.flag.load(SeqCst)
    }

    /// Waits until the flag is set. Whether it was seen in time.
    pub fn is_seen(&self) -> bool {
        for _turn in 0..TURNS {
            if self.is_set() {
                return true;
            }
            yield_now();
        }
        false
    }
}

/// A call and a post that wait for one another, where they wait.
#[derive(Drop)]
pub struct Kind {
    waits: bool,
    called: Held,
    posted: Held,
    /// The call saw its post.
    call_met: Held,
    /// The post saw its call.
    post_met: Held,
}

impl Kind {
    fn new(waits: bool) -> Kind {
        Kind {
            waits,
            called: Held::new(),
            posted: Held::new(),
            call_met: Held::new(),
            post_met: Held::new(),
        }
    }

    /// In a call: waits until the post was made.
    pub(crate) fn call(&self) {
        if !self.waits {
            return;
        }
        self.called.come();
        if self.posted.is_seen() {
            self.call_met.come();
        }
    }

    /// Before the post: waits until a call has begun.
    fn wait_for_call(&self) {
        if self.waits && self.called.is_seen() {
            self.post_met.come();
        }
    }

    /// Whether a call and its post saw one another.
    fn is_met(&self) -> bool {
        self.call_met.is_set() && self.post_met.is_set()
    }
}

/// The kinds of calls, each with its post.
#[derive(Drop)]
pub struct Kinds {
    pub(crate) body: Kind,
    pub(crate) poll: Kind,
    pub(crate) effect: Kind,
    pub(crate) clean_up: Kind,
}

impl Kinds {
    fn made(bodies: bool, others: bool) -> Kinds {
        Kinds {
            body: Kind::new(bodies),
            poll: Kind::new(others),
            effect: Kind::new(others),
            clean_up: Kind::new(others),
        }
    }

    /// Those of an application whose calls wait.
    pub fn new() -> Kinds {
        Kinds::made(true, true)
    }

    /// Those of one whose bodies alone wait.
    pub fn of_bodies() -> Kinds {
        Kinds::made(true, false)
    }

    /// Those of an application that doesn't wait.
    pub fn free() -> Kinds {
        Kinds::made(false, false)
    }

    /// A kind by the number of its post.
    fn kind(&self, number: u64) -> Option<&Kind> {
        match number {
            0 => Some(&self.body),
            1 => Some(&self.poll),
            2 => Some(&self.effect),
            3 => Some(&self.clean_up),
            _ => None,
        }
    }

    /// Before a post: waits for its call.
    pub fn wait_for_call(&self, number: u64) {
        if let Some(kind) = self.kind(number) {
            kind.wait_for_call();
        }
    }

    /// After a post.
    pub fn tell_posted(&self, number: u64) {
        if let Some(kind) = self.kind(number) {
            kind.posted.come();
        }
    }

    /// Whether a body and its post saw one another.
    pub fn is_body_met(&self) -> bool {
        self.body.is_met()
    }

    /// Whether a call of each kind and its post saw one another.
    pub fn are_met(&self) -> bool {
        self.body.is_met() && self.poll.is_met() && self.effect.is_met() && self.clean_up.is_met()
    }
}
