//! Want of memory: the one refusal that any call which allocates may give.

ghost use Rattle.std.specs.Prelude.{◌≡◌, IfOk, IsOk, Ok, OnOk};

use std::alloc::{AllocError, AllocFailed};

/// There was no memory for what the call had to build.
#[derive(Clone, Copy, Debug, PartialEq, Eq)]
pub struct OutOfMemory;

impl From<AllocError> for OutOfMemory {
    fn from(_error: AllocError) -> OutOfMemory {
        OutOfMemory
    }
}

impl<T: Drop> From<AllocFailed<T>> for OutOfMemory {
    fn from(_refused: AllocFailed<T>) -> OutOfMemory {
        OutOfMemory
    }
}

/// Both values, where there was memory for each.
pub fn both<A: Drop, B: Drop>(
    left: Result<A, OutOfMemory>,
    right: Result<B, OutOfMemory>,
) -> Result<(A, B), OutOfMemory>
    ensures ok { OnOk left (OnOk right (IsOk result)) }
    ensures left { IfOk result (λ pair. left ≡ Ok pair.0) }
    ensures right { IfOk result (λ pair. right ≡ Ok pair.1) }
{
    match (left, right) {
        (Ok(left), Ok(right)) => Ok((left, right)),
        _ => Err(OutOfMemory),
    }
}
