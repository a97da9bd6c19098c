//! Why a call on a `Cx` is refused.

use rt_values::{OutOfMemory, ScopeId};

/// A counter of numbers that are drawn once.
#[derive(Clone, Copy, Debug, PartialEq, Eq)]
pub enum Counter {
    Scopes,
    Tasks,
    Cells,
    Contexts,
    Elements,
    Errors,
    Renders,
}

/// Why a call on a `Cx` was refused.
#[derive(Clone, Copy, Debug, PartialEq, Eq)]
pub enum CxFault {
    /// There was no memory for what the call had to build.
    OutOfMemory,
    /// The counter is at its end, and another number of it is wanted.
    IdsExhausted {
        what: Counter,
    },
    /// A hook of another kind stands at the index.
    HookChanged {
        scope: ScopeId,
        index: u64,
        kept: u32,
        asked: u32,
    },
}

impl From<OutOfMemory> for CxFault {
    ghost use Rattle.std.specs.Prelude.{◌≡◌};
    ghost use Rattle.run_records.specs.declared.faults.CxFault.TheVariants.{OutOfMemory};

    ghost from_gives = { λ _ fault. fault ≡ OutOfMemory };

    fn from(_refused: OutOfMemory) -> CxFault {
        CxFault::OutOfMemory
    }
}
