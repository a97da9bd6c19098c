//! Plain names: what is posted, what is owed, why a change ends early.

use rt_values::OutOfMemory;
use run_records::Counter;

/// What is posted: a mark of a scope, a wake of a task.
#[derive(Clone, Copy, Debug, PartialEq, Eq)]
pub enum Posted {
    Mark(u64),
    Woken(u64),
}

/// Who may poll a task in a suspended render.
#[derive(Clone, Copy, Debug, PartialEq, Eq)]
pub enum TaskKind {
    ClientOnly,
    Isomorphic,
    Suspended,
}

/// What the scheduler takes: a scope to rerun, a task to poll, the effects of a scope.
#[derive(Clone, Copy, Debug, PartialEq, Eq)]
pub enum Work {
    RerunScope(u64),
    PollTask(u64),
    RunEffects(u64),
}

/// Why a change can't be done, but for want of memory.
#[derive(Clone, Copy, Debug, PartialEq, Eq)]
pub enum Cause {
    /// The counter is at its end, and another number of it is wanted.
    IdsExhausted {
        what: Counter,
    },
    /// A body kept another kind of hook at the index before.
    HookChanged {
        scope: u64,
        index: u64,
        kept: u32,
        asked: u32,
    },
    /// A body suspended on a task that isn't live.
    NoSuchTask {
        scope: u64,
        task: u64,
    },
    /// A body answered a tree that fails the node test.
    BadNode {
        scope: u64,
    },
}

/// Why a change ended early. What it did before stands.
#[derive(Clone, Copy, Debug, PartialEq, Eq)]
pub enum Stop {
    OutOfMemory,
    Fault(Cause),
}

impl From<OutOfMemory> for Stop {
    ghost use Rattle.std.specs.Prelude.{◌≡◌};
    ghost use Rattle.run_state.specs.declared.names.Stop.TheVariants.{OutOfMemory};

    ghost from_gives = { λ _ stop. stop ≡ OutOfMemory };

    fn from(_refused: OutOfMemory) -> Stop {
        Stop::OutOfMemory
    }
}
