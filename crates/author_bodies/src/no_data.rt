//! A type without data.

use rt_values::{OutOfMemory, Part};
use std::alloc::Global;

/// What says nothing but that it is there: the effects, the payloads or the tasks of an application
/// without them, its only component, props without data.
#[derive(Clone, Copy, PartialEq, Eq)]
pub struct NoData;

impl Part for NoData {
    fn same(&self, _other: &NoData) -> bool {
        true
    }

    fn copy(&self, _alloc: Global) -> Result<NoData, OutOfMemory> {
        Ok(*self)
    }
}
