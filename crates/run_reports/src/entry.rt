//! The entries of a log.
ghost use Rattle.std.specs.Prelude.{◌≡◌, map};
ghost use Rattle.rt_model.specs.Told.{is_body, is_unit, count_entries};
ghost use Rattle.run_reports.specs.Seen.{entry_of};

use rt_values::{OutOfMemory, Part, ScopeId, Task};
use std::alloc::Global;

/// One thing that happened.
#[derive(Clone, Copy, Debug, PartialEq, Eq)]
pub enum Entry {
    /// The root wrapper was run for the first time.
    Build,
    /// The input of this number was taken in. The first one has number 1.
    Input(u64),
    /// A listener of this scope was called.
    Heard(ScopeId),
    /// This scope was marked, and was run again.
    Rerun(ScopeId),
    /// This task was polled.
    Poll(Task),
    /// The effects that this scope had queued were run.
    Effects(ScopeId),
    /// This scope was made, and its body was run.
    Made(ScopeId),
    /// This scope was handed a component, and was run.
    Fed(ScopeId),
    /// This scope was handed a component, and kept its output.
    Kept(ScopeId),
    /// This scope was removed.
    Removed(ScopeId),
}

impl Entry {
    /// Whether a body of the component tree was run.
    pub fn is_body(self) -> bool
        ensures { result ≡ is_body (entry_of self) }
    {
        match self {
            Entry::Build | Entry::Rerun(_) | Entry::Made(_) | Entry::Fed(_) => true,
            _ => false,
        }
    }

    /// Whether a unit of work was taken from the scheduler.
    pub fn is_unit(self) -> bool
        ensures { result ≡ is_unit (entry_of self) }
    {
        match self {
            Entry::Rerun(_) | Entry::Poll(_) | Entry::Effects(_) => true,
            _ => false,
        }
    }
}

/// How many units of work the entries begin.
pub fn units_in(log: &[Entry]) -> u64
    ensures { result ≡ count_entries is_unit (map entry_of log.now) }
{
    let mut units = 0;
    for entry in log {
        if entry.is_unit() {
            units += 1;
        }
    }
    units
}

/// In how many entries a body of the component tree was run.
pub fn bodies_in(log: &[Entry]) -> u64
    ensures { result ≡ count_entries is_body (map entry_of log.now) }
{
    let mut bodies = 0;
    for entry in log {
        if entry.is_body() {
            bodies += 1;
        }
    }
    bodies
}

impl Part for Entry {
    fn same(&self, other: &Entry) -> bool {
        *self == *other
    }

    fn copy(&self, _alloc: Global) -> Result<Entry, OutOfMemory> {
        Ok(*self)
    }
}
