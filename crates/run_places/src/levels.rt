//! How many calls may still be nested.

ghost use Rattle.std.specs.Prelude.{◌≡◌, ◌+◌, IfOk};

use rt_values::OutOfMemory;

/// More calls than any tree nests.
pub const LEVELS: u64 = u64::MAX;

/// One level further down. Where there is none the calls need more memory than there is.
pub fn down(levels: u64) -> Result<u64, OutOfMemory>
    ensures { IfOk result (λ below. below + 1 ≡ levels) }
{
    if levels == 0 {
        return Err(OutOfMemory);
    }
    Ok(levels - 1)
}
