//! The calls of a stream, counted from 1, of which some are to fail.
ghost use Rattle.std.specs.Prelude.{◌≡◌, ◌≤◌, ◌<◌, ◌+◌, ◌↔◌, IsTrue, Contains};
ghost use Rattle.show_streams.specs.Failures.{failures};

use rt_values::List;

/// Which calls fail, and how many calls there were.
#[derive(Drop)]
pub struct Schedule {
    pub fails: List<u64>,
    pub calls: u64,
}

impl Schedule {
    pub fn new(fails: List<u64>) -> Schedule
        ensures fails { result.fails ≡ fails }
        ensures calls { result.calls ≡ 0 }
    {
        Schedule { fails, calls: 0 }
    }

    /// Counts one more call and answers whether it is to fail. A call beyond the last number
    /// isn't counted and doesn't fail.
    pub fn fails_next(&mut self) -> bool
        ensures numbered { self.old.calls < u64.MAX → (IsTrue result ↔ Contains self.old.fails self.new.calls) }
        ensures counted { self.old.calls < u64.MAX → self.new.calls ≡ self.old.calls + 1 }
        ensures kept { self.new.fails ≡ self.old.fails }
        ensures later { failures self.old.fails self.old.calls ≤ failures self.new.fails self.new.calls }
        ensures cause { IsTrue result →
            failures self.old.fails self.old.calls < failures self.new.fails self.new.calls }
    {
        if self.calls == u64::MAX {
            return false;
        }
        self.calls += 1;
        self.fails.as_slice().contains(&self.calls)
    }
}
