//! Why a call of a dom is refused.

use rt_values::OutOfMemory;
use run_reports::Fault;
use thiserror::Error;

/// Why a call of a dom is refused.
#[derive(Clone, Copy, Debug, PartialEq, Eq, Drop, Error)]
pub enum DomFault {
    /// What was done came to a fault.
    #[error("{0}")]
    Run(Fault),
    /// Number 9: the dom isn't built yet.
    #[error("the dom isn't built yet")]
    NotBuilt,
    /// Number 10: the dom is built already.
    #[error("the dom is built already")]
    AlreadyBuilt,
    /// Number 11: an earlier call came to a fault.
    #[error("an earlier call came to a fault")]
    Failed,
}

impl From<Fault> for DomFault {
    ghost use Rattle.std.specs.Prelude.{◌≡◌};
    ghost use Rattle.run_answers.specs.declared.refusal.DomFault.TheVariants.{Run};

    ghost from_gives = { λ fault refusal. refusal ≡ Run fault };

    fn from(fault: Fault) -> DomFault {
        DomFault::Run(fault)
    }
}

impl From<OutOfMemory> for DomFault {
    ghost use Rattle.std.specs.Prelude.{◌≡◌};
    ghost use Rattle.run_answers.specs.declared.refusal.DomFault.TheVariants.{Run};
    ghost use Rattle.run_reports.specs.declared.fault.Fault.TheVariants.{OutOfMemory};

    ghost from_gives = { λ _ refusal. refusal ≡ Run OutOfMemory };

    fn from(_refused: OutOfMemory) -> DomFault {
        DomFault::Run(Fault::OutOfMemory)
    }
}
