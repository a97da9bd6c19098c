//! Why a session ends without an answer.

use crate::report::Report;
use rt_values::{List, OutOfMemory, ScopeId, Task};
use run_records::Counter;
use thiserror::Error;

/// Why a run ends. Each kind keeps its number, of which the program prints all but the first two.
#[derive(Clone, Copy, Debug, PartialEq, Eq, Drop, Error)]
pub enum Fault {
    /// Number 1: there was no memory for what the run had to build.
    #[error("out of memory")]
    OutOfMemory,
    /// Number 2: the sink failed.
    #[error("the sink failed")]
    SinkFault,
    /// Number 3: so many units were done since the build or the last input, and one more is owed.
    #[error("{units} units were done, and one more is owed")]
    OutOfTurns {
        units: u64,
    },
    /// Number 4: a component to be made would have this height.
    #[error("a scope of height {height} is too deep")]
    TooDeep {
        height: u64,
    },
    /// Number 5: a counter is at its end, and another number of it is wanted.
    #[error("no number is left of {what:?}")]
    IdsExhausted {
        what: Counter,
    },
    /// Number 6: a body asked for a hook of another kind than the one that stands at the index.
    #[error("the hook at index {index} of scope {} is of kind {kept}, not {asked}", scope.0)]
    HookChanged {
        scope: ScopeId,
        index: u64,
        kept: u32,
        asked: u32,
    },
    /// Number 7: the body of this scope waits for a task that isn't live.
    #[error("scope {} waits for task {}, which isn't live", scope.0, task.0)]
    NoSuchTask {
        scope: ScopeId,
        task: Task,
    },
    /// Number 8: the body of this scope answered what can't be shown.
    #[error("scope {} answered a tree that does not fit", scope.0)]
    BadNode {
        scope: ScopeId,
    },
}

impl From<OutOfMemory> for Fault {
    ghost use Rattle.std.specs.Prelude.{◌≡◌};
    ghost use Rattle.run_reports.specs.declared.fault.Fault.TheVariants.{OutOfMemory};

    ghost from_gives = { λ _ fault. fault ≡ OutOfMemory };

    fn from(_refused: OutOfMemory) -> Fault {
        Fault::OutOfMemory
    }
}

/// A run that ended in a fault, and the reports that were finished before it.
#[derive(Debug, Drop)]
pub struct SessionFault {
    pub fault: Fault,
    pub reports: List<Report>,
}
