//! Why a page isn't served to its end.
ghost use Rattle.std.specs.Prelude.{◌≡◌};
ghost use Rattle.rt_served.specs.Faults.{run_fault};

use rt_html::HtmlError;
use rt_values::OutOfMemory;
use run_answers::DomFault;
use run_reports::Fault;
use show_streams::OutError;
use thiserror::Error;

/// Why a page isn't served to its end.
#[derive(Clone, Copy, Debug, PartialEq, Eq, Drop, Error)]
pub enum ServeFault {
    /// The run came to a fault, which is neither want of memory nor that of a sink.
    #[error("{0}")]
    Run(Fault),
    /// A tag, a name or a namespace of the page or of a piece can't be spelt.
    #[error("a name can't be spelt")]
    BadName,
    /// The out failed.
    #[error("the out failed")]
    OutFault,
    /// There was no memory.
    #[error("out of memory")]
    OutOfMemory,
}

/// A fault of a run as it is served.
fn of_run(fault: Fault) -> ServeFault
    ensures { result ≡ run_fault fault }
{
    match fault {
        Fault::OutOfMemory => ServeFault::OutOfMemory,
        Fault::SinkFault => ServeFault::Run(fault),
        Fault::OutOfTurns { .. } => ServeFault::Run(fault),
        Fault::TooDeep { .. } => ServeFault::Run(fault),
        Fault::IdsExhausted { .. } => ServeFault::Run(fault),
        Fault::HookChanged { .. } => ServeFault::Run(fault),
        Fault::NoSuchTask { .. } => ServeFault::Run(fault),
        Fault::BadNode { .. } => ServeFault::Run(fault),
    }
}

impl From<OutOfMemory> for ServeFault {
    ghost use Rattle.std.specs.Prelude.{◌≡◌};
    ghost use Rattle.rt_served.specs.declared.refusal.ServeFault.TheVariants.{OutOfMemory};

    ghost from_gives = { λ _ fault. fault ≡ OutOfMemory };

    fn from(_refused: OutOfMemory) -> ServeFault {
        ServeFault::OutOfMemory
    }
}

impl From<OutError> for ServeFault {
    ghost use Rattle.std.specs.Prelude.{◌≡◌};
    ghost use Rattle.rt_served.specs.Faults.{put_fault};

    ghost from_gives = { λ error fault. fault ≡ put_fault error };

    fn from(error: OutError) -> ServeFault {
        match error {
            OutError::Failed => ServeFault::OutFault,
            OutError::OutOfMemory => ServeFault::OutOfMemory,
        }
    }
}

impl From<HtmlError> for ServeFault {
    ghost use Rattle.std.specs.Prelude.{◌≡◌};
    ghost use Rattle.rt_served.specs.Faults.{html_fault};

    ghost from_gives = { λ error fault. fault ≡ html_fault error };

    fn from(error: HtmlError) -> ServeFault {
        match error {
            HtmlError::BadName => ServeFault::BadName,
            HtmlError::OutOfMemory => ServeFault::OutOfMemory,
        }
    }
}

impl From<Fault> for ServeFault {
    ghost use Rattle.std.specs.Prelude.{◌≡◌};
    ghost use Rattle.rt_served.specs.Faults.{run_fault};

    ghost from_gives = { λ fault refused. refused ≡ run_fault fault };

    fn from(fault: Fault) -> ServeFault {
        of_run(fault)
    }
}

impl From<DomFault> for ServeFault {
    ghost use Rattle.std.specs.Prelude.{◌≡◌};
    ghost use Rattle.rt_served.specs.Faults.{dom_fault};

    ghost from_gives = { λ fault refused. refused ≡ dom_fault fault };

    fn from(fault: DomFault) -> ServeFault {
        match fault {
            DomFault::Run(fault) => of_run(fault),
            // A dom that was built, and has come to no fault, answers none of these.
            DomFault::NotBuilt => ServeFault::OutOfMemory,
            DomFault::AlreadyBuilt => ServeFault::OutOfMemory,
            DomFault::Failed => ServeFault::OutOfMemory,
        }
    }
}
