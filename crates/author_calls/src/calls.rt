//! How many calls of an application were begun.
ghost use Rattle.std.specs.Prelude.{◌≡◌, ◌+◌, min};

use std::marker::Model;

/// How many calls of an application were begun, up to the greatest `u64`.
#[derive(Drop)]
pub struct Calls {
    count: u64,
}

impl Model for Calls {
    ghost use Rattle.std.specs.Prelude.{ℕ};

    ghost Value = { ℕ };

    ghost view = { λ calls. calls.count };
}

impl Calls {
    /// How many calls were begun.
    pub fn count(&self) -> u64
        ensures { result ≡ self.now }
    {
        self.count
    }

    /// One more call.
    pub(crate) fn raise(&mut self)
        ensures { self.new ≡ min (self.old + 1) u64.MAX }
    {
        self.count = self.count.saturating_add(1);
    }
}

/// No call was begun. It is for the crate that keeps the scopes, which hands it on to no one.
pub fn no_calls() -> Calls
    ensures { result ≡ 0 }
{
    Calls { count: 0 }
}
