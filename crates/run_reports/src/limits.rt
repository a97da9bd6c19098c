//! How far a session goes.
ghost use Rattle.std.specs.Prelude.{◌≡◌};
ghost use Rattle.run_reports.specs.Seen.{usual};

/// How far a session goes before it gives up.
#[derive(Clone, Copy, Debug, PartialEq, Eq)]
pub struct Limits {
    /// How many units may follow the build, and each input.
    pub units: u64,
    /// The greatest height of a scope. The root wrapper has height 0.
    pub height: u32,
    /// How many messages one drain takes at most.
    pub drain: u64,
}

/// How far a session goes where nothing else is said.
pub const USUAL: Limits = Limits {
    units: 10_000,
    height: 128,
    drain: 1_024,
};

impl Limits {
    /// The limits of a session of which nothing else is said: 10,000 units after the build and after
    /// each input, a height of 128, and 1,024 messages a drain.
    pub fn usual() -> Limits
        ensures usual { result ≡ usual }
    {
        USUAL
    }
}
