//! Names by number. A number is drawn once, so a name never comes back to life.

use crate::memory::OutOfMemory;
use crate::part::Part;
use std::alloc::Global;

/// One component that is live or was.
#[derive(Clone, Copy, Debug, PartialEq, Eq, PartialOrd, Ord, Hash)]
pub struct ScopeId(pub u64);

impl ScopeId {
    /// The root wrapper, above all other scopes.
    pub const ROOT: ScopeId = ScopeId(0);

    /// The suspense boundary under the root wrapper.
    pub const ROOT_SUSPENSE_BOUNDARY: ScopeId = ScopeId(1);

    /// The error boundary under the root's suspense boundary.
    pub const ROOT_ERROR_BOUNDARY: ScopeId = ScopeId(2);

    /// The application's own root component.
    pub const APP: ScopeId = ScopeId(3);
}

/// One spawned task, at work or ended.
#[derive(Clone, Copy, Debug, PartialEq, Eq, PartialOrd, Ord, Hash)]
pub struct Task(pub u64);

impl Part for ScopeId {
    fn same(&self, other: &ScopeId) -> bool {
        *self == *other
    }

    fn copy(&self, _alloc: Global) -> Result<ScopeId, OutOfMemory> {
        Ok(*self)
    }
}

impl Part for Task {
    fn same(&self, other: &Task) -> bool {
        *self == *other
    }

    fn copy(&self, _alloc: Global) -> Result<Task, OutOfMemory> {
        Ok(*self)
    }
}
