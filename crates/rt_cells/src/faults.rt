//! Why a cell or a context can't be made.
ghost use Rattle.std.specs.Prelude.{◌≡◌};

use rt_values::OutOfMemory;

/// Why a cell or a reactive context wasn't made. Nothing has changed then.
#[derive(Clone, Copy, Debug, PartialEq, Eq)]
pub enum CellsFault {
    /// There was no memory for it.
    OutOfMemory,
    /// Its counter is at its end, so there is no number for it.
    IdsExhausted,
}

impl From<OutOfMemory> for CellsFault {
    ghost use Rattle.rt_cells.specs.declared.faults.CellsFault.TheVariants.{OutOfMemory};

    ghost from_gives = { λ _ fault. fault ≡ OutOfMemory };

    fn from(_error: OutOfMemory) -> CellsFault {
        CellsFault::OutOfMemory
    }
}
