//! Reading a source to its end.
ghost use Rattle.std.specs.Prelude.{◌≡◌, ◌<◌, ◌≤◌, IfOk, IsErrOf};
ghost use Rattle.show_streams.specs.Reads.{IsWhole, IsLonger, Advances};

use crate::source::Source;
use rt_values::List;
use std::alloc::{AllocError, Global};

/// The most bytes that are read of a source.
pub const MOST_BYTES: usize = 16_777_216;

/// Why a source was not read to its end.
#[derive(Clone, Copy, Debug, PartialEq, Eq)]
pub enum ReadError {
    /// A read failed.
    Failed,
    /// It has more bytes than are read of a source.
    TooLong,
    /// There was no memory to keep the bytes in.
    OutOfMemory,
}

impl From<AllocError> for ReadError {
    ghost use Rattle.std.specs.Prelude.{◌≡◌};
    ghost use Rattle.show_streams.specs.declared.reading.ReadError.TheVariants.{OutOfMemory};

    ghost from_gives = { λ _ error. error ≡ OutOfMemory };

    fn from(_error: AllocError) -> ReadError {
        ReadError::OutOfMemory
    }
}

/// The bytes of a source up to its end, of which there may be `MOST_BYTES`.
pub fn read_all<S: Source>(alloc: Global, source: &mut S) -> Result<List<u8>, ReadError>
    ensures whole { IfOk result (λ bytes. IsWhole bytes (S.left source.old) (S.left source.new)) }
    ensures too_long { IsErrOf result ReadError.TooLong → IsLonger MOST_BYTES (S.left source.old) }
    ensures later { S.faults source.old ≤ S.faults source.new }
    ensures cause { IsErrOf result ReadError.Failed → S.faults source.old < S.faults source.new }
    ensures failed { IsErrOf result ReadError.Failed →
        Advances MOST_BYTES (S.left source.old) (S.left source.new) }
{
    let mut bytes = Vec::new(alloc);
    let mut room = [0u8; 4096];
    while bytes.len() <= MOST_BYTES {
        let Ok(count) = source.read(&mut room) else {
            return Err(ReadError::Failed);
        };
        if count == 0 {
            return Ok(List::from_vec(bytes));
        }
        bytes.extend_from_slice(&room[..count as usize])?;
    }
    Err(ReadError::TooLong)
}
