//! Why the program doesn't come to its end.
ghost use Rattle.std.specs.Prelude.{◌≡◌, Err};
ghost use Rattle.show_words.specs.Outs.{status_of};

use rt_values::{OutOfMemory, ScopeId};
use run_reports::Fault;
use show_streams::OutError;
use std::alloc::Global;

/// Why the program doesn't come to its end.
#[derive(Clone, Copy, Debug, PartialEq, Eq)]
pub enum Stop {
    /// The words aren't known.
    Words,
    /// The source is too long, or isn't in the form.
    Form,
    /// The run ended in a fault, which was printed.
    Fault,
    /// The source failed.
    Source,
    /// The out failed.
    Out,
    OutOfMemory,
}

impl Stop {
    /// The status that the program ends with.
    pub fn status(self) -> u8
        ensures status { result ≡ status_of (Err self) }
    {
        match self {
            Stop::Words => 2,
            Stop::Form => 3,
            Stop::Fault => 4,
            Stop::Source => 5,
            Stop::Out => 6,
            Stop::OutOfMemory => 7,
        }
    }
}

impl From<OutOfMemory> for Stop {
    ghost use Rattle.std.specs.Prelude.{◌≡◌};
    ghost use Rattle.show_words.specs.declared.reason.Stop.TheVariants.{OutOfMemory};

    ghost from_gives = { λ _ stop. stop ≡ OutOfMemory };

    fn from(_refused: OutOfMemory) -> Stop {
        Stop::OutOfMemory
    }
}

impl From<OutError> for Stop {
    ghost use Rattle.std.specs.Prelude.{◌≡◌};
    ghost use Rattle.show_words.specs.Outs.{stop_of};

    ghost from_gives = { λ error stop. stop ≡ stop_of error };

    fn from(error: OutError) -> Stop {
        match error {
            OutError::Failed => Stop::Out,
            OutError::OutOfMemory => Stop::OutOfMemory,
        }
    }
}

/// What a fault says; of the scope that the application begins with, whose it is.
pub fn fault_said(alloc: Global, fault: Fault) -> Result<String, OutOfMemory> {
    let scope = match fault {
        Fault::HookChanged { scope, .. } => scope,
        Fault::NoSuchTask { scope, .. } => scope,
        Fault::BadNode { scope } => scope,
        _ => ScopeId(0),
    };
    if scope.0 == 3 {
        Ok(format!(in alloc; "{fault}; scope 3 is that of the root component")?)
    } else {
        Ok(format!(in alloc; "{fault}")?)
    }
}
