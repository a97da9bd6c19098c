//! What a reader reads, who reads, and whom a reactive context tells.

use rt_values::{OutOfMemory, Part, ScopeId, Task};
use std::alloc::Global;

/// What can be read and may change: ordered by these three kinds, then by what they hold.
#[derive(Clone, Copy, Debug, PartialEq, Eq, PartialOrd, Ord)]
pub enum Source {
    /// The cell of that number.
    Cell(u64),
    /// The error that the scope keeps.
    Error(ScopeId),
    /// What the scope itself provides of the kind.
    Context(u32, ScopeId),
}

/// Who reads: scopes come before reactive contexts, each by number.
#[derive(Clone, Copy, Debug, PartialEq, Eq, PartialOrd, Ord)]
pub enum Reader {
    /// The scope's body.
    Scope(ScopeId),
    /// The reactive context of that number.
    Context(u64),
}

/// Whom a reactive context tells when one of its sources changes.
#[derive(Clone, Copy, Debug, PartialEq, Eq)]
pub enum Target {
    /// The scope is marked.
    Scope(ScopeId),
    /// The task is woken.
    Task(Task),
}

impl Part for Source {
    fn same(&self, other: &Source) -> bool {
        *self == *other
    }

    fn copy(&self, _alloc: Global) -> Result<Source, OutOfMemory> {
        Ok(*self)
    }
}

impl Part for Reader {
    fn same(&self, other: &Reader) -> bool {
        *self == *other
    }

    fn copy(&self, _alloc: Global) -> Result<Reader, OutOfMemory> {
        Ok(*self)
    }
}

impl Part for Target {
    fn same(&self, other: &Target) -> bool {
        *self == *other
    }

    fn copy(&self, _alloc: Global) -> Result<Target, OutOfMemory> {
        Ok(*self)
    }
}
