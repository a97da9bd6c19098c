//! Where bytes are written.
ghost use Rattle.std.specs.Prelude.{◌≡◌, ◌∷◌, [], ℕ};
ghost use Rattle.show_streams.specs.Writes.{Puts, Writes};

use rt_values::OutOfMemory;
use std::alloc::AllocError;

/// Why bytes were not all written.
#[derive(Clone, Copy, Debug, PartialEq, Eq)]
pub enum OutError {
    /// The out refused.
    Failed,
    /// There was no memory to keep the bytes in.
    OutOfMemory,
}

impl From<AllocError> for OutError {
    ghost use Rattle.std.specs.Prelude.{◌≡◌};
    ghost use Rattle.show_streams.specs.declared.out.OutError.TheVariants.{OutOfMemory};

    ghost from_gives = { λ _ error. error ≡ OutOfMemory };

    fn from(_error: AllocError) -> OutError {
        OutError::OutOfMemory
    }
}

impl From<OutOfMemory> for OutError {
    ghost use Rattle.std.specs.Prelude.{◌≡◌};
    ghost use Rattle.show_streams.specs.declared.out.OutError.TheVariants.{OutOfMemory};

    ghost from_gives = { λ _ error. error ≡ OutOfMemory };

    fn from(_error: OutOfMemory) -> OutError {
        OutError::OutOfMemory
    }
}

/// A place that takes bytes in order.
pub trait Out: Drop {
    /// What each put wrote, in order, where the out tells it.
    ghost puts: { Self → Puts };

    /// How many puts have failed.
    ghost faults: { Self → ℕ };

    /// Writes all of the bytes. After an error it has written a front of them, or made no put at all.
    fn put(&mut self, bytes: &[u8]) -> Result<(), OutError>
        ensures writes { Writes (bytes.now ∷ []) (puts self.old) (puts self.new) (faults self.old) (faults self.new) result };
}
