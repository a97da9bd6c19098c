//! A gate that wakes who waits for a post.

use crate::gate::Gate;
use std::sync::Wait;
use std::sync::atomic::AtomicU64;
use std::sync::atomic::Ordering::SeqCst;
use std::time::Duration;

/// Counts the posts that were made, and wakes the thread that sleeps until there is one more. An
/// owner that reads the count, drains, finds nothing and then waits with that count misses no post.
#[derive(Drop)]
pub struct Bell {
    rung: AtomicU64,
}

impl Bell {
    /// A bell that hasn't rung.
    pub fn new() -> Bell {
        Bell {
            rung: AtomicU64::new(0),
        }
    }

    /// How often it has rung, once for each post that was made, refused ones too.
    pub fn rung(&self) -> u64 {
        self.rung.load(SeqCst)
    }

    /// Sleeps while it has rung just so often, and no longer than that time. It may come back
    /// earlier. A time has to be given, since no post comes where no thread could be started.
    pub fn wait<R: Wait>(&self, rt: &R, seen: u64, most: Duration) {
        self.rung
            .park_timeout(rt, (seen & 0xffff_ffff) as u32, most);
    }
}

impl Gate for Bell {
    fn before(&self, _poster: u64, _seq: u64) {}

    fn after(&self, _poster: u64, _seq: u64) {
        self.rung.fetch_add(1, SeqCst);
        self.rung.wake_one();
    }
}
