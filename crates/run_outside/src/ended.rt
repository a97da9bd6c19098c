//! Why a session ends early.
ghost use Rattle.std.specs.Prelude.{◌≡◌, ℕ, List, Some, IsTrue, ◌↔◌};
ghost use Rattle.rt_model.specs.Document.{Edit};
ghost use Rattle.rt_model.specs.Sentences.{IsFrontOf};
ghost use Rattle.run_reports.specs.Seen.{fault_of};
ghost use Rattle.run_state.specs.Names.{fault_of as cause_of};
ghost use Rattle.run_state.specs.declared.names.Stop.TheVariants as stops;
ghost use Rattle.run_outside.specs.declared.ended.Ended.TheVariants as ends;
ghost use Rattle.run_reports.specs.declared.limits.Limits.{Limits};
ghost use Rattle.run_outside.specs.Ends.{Explains, Causes, fault_in};
ghost use Rattle.run_outside.specs.Short.{PartBy, PartOf};

use rt_values::{OutOfMemory, ScopeId, Task};
use run_reports::Fault;
use run_state::{Cause, Stop};

/// Why a session ends early.
#[derive(Clone, Copy, Debug, PartialEq, Eq)]
pub enum Ended {
    /// The sink failed.
    Sink,
    /// So many units were done as one input may lead to, and more is owed.
    OutOfTurns { units: u64 },
    /// A scope would stand higher than scopes may.
    TooDeep { height: u64 },
    /// The run itself ended.
    Run(Stop),
}

impl From<OutOfMemory> for Ended {
    ghost use Rattle.std.specs.Prelude.{◌≡◌};
    ghost use Rattle.run_state.specs.declared.names.Stop.TheVariants as stops;
    ghost use Rattle.run_outside.specs.declared.ended.Ended.TheVariants.{Run};

    ghost from_gives = { λ _ ended. ended ≡ Run stops.OutOfMemory };

    fn from(_refused: OutOfMemory) -> Ended {
        Ended::Run(Stop::OutOfMemory)
    }
}

impl From<Stop> for Ended {
    ghost use Rattle.std.specs.Prelude.{◌≡◌};
    ghost use Rattle.run_outside.specs.declared.ended.Ended.TheVariants.{Run};

    ghost from_gives = { λ stop ended. ended ≡ Run stop };

    fn from(stop: Stop) -> Ended {
        Ended::Run(stop)
    }
}

impl Ended {
    /// Whether memory was wanting.
    pub fn wants_memory(self) -> bool
        ensures { IsTrue result ↔ (self ≡ ends.Run stops.OutOfMemory) }
    {
        matches!(self, Ended::Run(Stop::OutOfMemory))
    }

    /// The fault that is answered.
    pub fn fault(self) -> Fault
        ensures causes { (limits : Limits) (before after : ℕ) →
            Explains limits before after self → Causes limits before after result }
        ensures of { fault_of result ≡ fault_in self }
        ensures parts { (taken edits : List Edit) → PartBy self taken edits → PartOf result taken edits }
    {
        match self {
            Ended::Sink => Fault::SinkFault,
            Ended::OutOfTurns { units } => Fault::OutOfTurns { units },
            Ended::TooDeep { height } => Fault::TooDeep { height },
            Ended::Run(Stop::OutOfMemory) => Fault::OutOfMemory,
            Ended::Run(Stop::Fault(cause)) => fault_of(cause),
        }
    }
}

/// A cause in the run as a fault.
fn fault_of(cause: Cause) -> Fault
    ensures causes { (limits : Limits) (before after : ℕ) → Causes limits before after result }
    ensures of { fault_of result ≡ Some (cause_of cause) }
    ensures parts { (taken edits : List Edit) → IsFrontOf taken edits → PartOf result taken edits }
{
    match cause {
        Cause::IdsExhausted { what } => Fault::IdsExhausted { what },
        Cause::HookChanged {
            scope,
            index,
            kept,
            asked,
        } => Fault::HookChanged {
            scope: ScopeId(scope),
            index,
            kept,
            asked,
        },
        Cause::NoSuchTask { scope, task } => Fault::NoSuchTask {
            scope: ScopeId(scope),
            task: Task(task),
        },
        Cause::BadNode { scope } => Fault::BadNode {
            scope: ScopeId(scope),
        },
    }
}
