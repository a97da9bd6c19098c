//! What a tree and its values are made of: things that can be compared and copied.
ghost use Rattle.std.specs.Prelude.{◌≡◌, ◌↔◌, IsTrue, IfOk};

use crate::memory::OutOfMemory;
use std::alloc::Global;

/// A value that can be compared with another and copied.
pub trait Part: Drop {
    /// Whether the two values are equal.
    fn same(&self, other: &Self) -> bool
        ensures same { IsTrue result ↔ (self.now ≡ other.now) };

    /// A value that equals this one.
    fn copy(&self, alloc: Global) -> Result<Self, OutOfMemory>
        ensures copy { IfOk result (λ copied. copied ≡ self.now) };
}

impl Part for bool {
    fn same(&self, other: &bool) -> bool {
        *self == *other
    }

    fn copy(&self, _alloc: Global) -> Result<bool, OutOfMemory> {
        Ok(*self)
    }
}

impl Part for u8 {
    fn same(&self, other: &u8) -> bool {
        *self == *other
    }

    fn copy(&self, _alloc: Global) -> Result<u8, OutOfMemory> {
        Ok(*self)
    }
}

impl Part for u32 {
    fn same(&self, other: &u32) -> bool {
        *self == *other
    }

    fn copy(&self, _alloc: Global) -> Result<u32, OutOfMemory> {
        Ok(*self)
    }
}

impl Part for u64 {
    fn same(&self, other: &u64) -> bool {
        *self == *other
    }

    fn copy(&self, _alloc: Global) -> Result<u64, OutOfMemory> {
        Ok(*self)
    }
}

impl Part for usize {
    fn same(&self, other: &usize) -> bool {
        *self == *other
    }

    fn copy(&self, _alloc: Global) -> Result<usize, OutOfMemory> {
        Ok(*self)
    }
}

impl Part for i64 {
    fn same(&self, other: &i64) -> bool {
        *self == *other
    }

    fn copy(&self, _alloc: Global) -> Result<i64, OutOfMemory> {
        Ok(*self)
    }
}

impl<T: Part> Part for Option<T> {
    fn same(&self, other: &Option<T>) -> bool {
        match (self, other) {
            (Some(value), Some(other)) => value.same(other),
            (None, None) => true,
            _ => false,
        }
    }

    fn copy(&self, alloc: Global) -> Result<Option<T>, OutOfMemory> {
        match self {
            Some(value) => Ok(Some(value.copy(alloc)?)),
            None => Ok(None),
        }
    }
}
