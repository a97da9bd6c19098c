//! How far a dom has come.
ghost use Rattle.std.specs.Prelude.{◌≡◌, if◌then◌else◌};

/// How far a dom has come.
#[derive(Clone, Copy, Debug, PartialEq, Eq)]
pub enum Stage {
    /// It isn't built yet.
    Fresh,
    /// It is built, and goes on.
    Built,
    /// An earlier call came to a fault.
    Failed,
}

/// A dom has failed, unless only units were spent.
pub fn failed_unless(stage: Stage, spent: bool) -> Stage
    ensures { result ≡ (if spent then stage else Stage.Failed) }
{
    if spent { stage } else { Stage::Failed }
}
