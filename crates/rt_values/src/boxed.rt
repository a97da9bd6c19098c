//! A box, which contracts see as the value in it.
ghost use Rattle.std.specs.Prelude.{◌≡◌, IfOk};
ghost use Rattle.std.specs.Fn.{FnOnceReturnsAtMut};

use crate::memory::OutOfMemory;
use crate::part::Part;
use std::alloc::Global;
use std::marker::Model;

/// A value in a place of its own, so that a type may hold itself.
#[derive(Debug, Drop)]
pub struct Boxed<T> {
    inner: Box<T>,
}

impl<T> Model for Boxed<T> {
    ghost Value = { T };

    ghost coded = { T.code };

    ghost view = { λ boxed. boxed.inner.value };
}

impl<T> Boxed<T> {
    /// The value to read.
    pub fn get(&self) -> &T
        ensures value { result.now ≡ self.now }
    {
        &self.inner
    }

    /// The value, out of its box.
    pub fn into_inner(self) -> T
        ensures value { result ≡ self }
    {
        let Boxed { inner } = self;
        Box::into_inner(inner)
    }
}

impl<T: Drop> Boxed<T> {
    /// Puts a value in a box.
    pub fn new(alloc: Global, value: T) -> Result<Boxed<T>, OutOfMemory>
        ensures value { IfOk result (λ boxed. boxed ≡ value) }
    {
        Ok(Boxed {
            inner: Box::new(alloc, value)?,
        })
    }

    /// Drops the value in the box and puts another in its place.
    pub fn set(&mut self, value: T)
        ensures value { self.new ≡ value }
    {
        *self.inner = value;
    }

    /// Changes the value where it stands.
    pub fn change<F: FnOnce(&mut T) -> Result<(), OutOfMemory>>(
        &mut self,
        change: F,
    ) -> Result<(), OutOfMemory>
        requires { F.IsAlwaysCallable change }
        ensures { FnOnceReturnsAtMut F.FnOnce change self.old result self.new }
    {
        change(&mut *self.inner)
    }

    /// Puts another value in the box, and gives back the one that was in it.
    pub fn replace(&mut self, value: T) -> T
        ensures former { result ≡ self.old }
        ensures value { self.new ≡ value }
    {
        std::mem::replace(&mut *self.inner, value)
    }
}

impl<T: Part> Part for Boxed<T> {
    fn same(&self, other: &Boxed<T>) -> bool {
        self.get().same(other.get())
    }

    fn copy(&self, alloc: Global) -> Result<Boxed<T>, OutOfMemory> {
        Boxed::new(alloc, self.get().copy(alloc)?)
    }
}
