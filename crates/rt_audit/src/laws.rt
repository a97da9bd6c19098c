//! What the runtime makes is accepted.
ghost use Rattle.rt_model.specs.OneLog.{types};
ghost use Rattle.rt_model.specs.World.{Application};
ghost use Rattle.rt_audit.specs.Runs.{RunsAreAccepted};

/// The logs of a session that finished, within whatever limits, are accepted.
pub fn runs_are_accepted<C, P, V, H, T, E, L>()
    ensures { (app : Application (types C P V H T E L)) → RunsAreAccepted app }
{}
