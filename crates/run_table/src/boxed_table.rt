//! A table whose values stay where they are when one goes.
ghost use Rattle.std.specs.Prelude.{◌≡◌, ℕ, List, [], ◌∷◌, ◌++◌, Some, None, true, IfSome, IfNone, OnOk, OnErr};
ghost use Rattle.std.specs.Option.{option_copied};
ghost use Rattle.std.specs.Fn.{FnOnceReturnsAtMut};
ghost use Rattle.rt_model.specs.Lists.{at, put, without};
ghost use Rattle.run_table.specs.Found.{IsTaken, Ascends};

use crate::table::Table;
use rt_values::{Boxed, OutOfMemory};
use std::alloc::Global;
use std::marker::Model;

/// Values under numbers, in the order in which they came, each in a box. Where one goes, numbers and
/// boxes move up, and no value does.
#[derive(Drop)]
pub struct BoxedTable<T> {
    alloc: Global,
    table: Table<Boxed<T>>,
}

impl<T> Model for BoxedTable<T> {
    ghost use Rattle.std.specs.Prelude.{List, ℕ};
    ghost use Rattle.std.specs.Coded.{coded_list, coded×, coded_ℕ};

    ghost Value = { List (ℕ × T) };

    ghost coded = { coded_list (coded× coded_ℕ T.code) };

    ghost view = { λ boxed. boxed.table };
}

impl<T> BoxedTable<T> {
    /// No value.
    pub fn new(alloc: Global) -> BoxedTable<T>
        ensures empty { result ≡ [] }
    {
        BoxedTable {
            alloc,
            table: Table::new(alloc),
        }
    }

    /// The values with their numbers, in order.
    pub fn as_slice(&self) -> &[(u64, Boxed<T>)]
        ensures rows { result.now ≡ self.now }
    {
        self.table.as_slice()
    }

    /// Whether the numbers are known to rise from row to row, as a table's are.
    pub fn rises(&self) -> bool
        ensures rises { result ≡ true → Ascends self.now }
    {
        self.table.rises()
    }

    /// The first value under a number. It is looked for as a table's is.
    pub fn get(&self, number: u64) -> Option<&T>
        ensures value { option_copied result ≡ at self.now number }
    {
        match self.table.get(number) {
            Some(found) => Some(found.get()),
            None => None,
        }
    }
}

impl<T: Drop> BoxedTable<T> {
    /// Puts one more value at the end.
    pub fn push(&mut self, number: u64, value: T) -> Result<(), OutOfMemory>
        ensures ok { OnOk result (self.new ≡ self.old ++ (number, value) ∷ []) }
        ensures err { OnErr result (self.new ≡ self.old) }
    {
        let value = Boxed::new(self.alloc, value)?;
        self.table.push(number, value)
    }

    /// Puts a value in the place of the first one under its number, or at the end.
    pub fn put(&mut self, number: u64, value: T) -> Result<(), OutOfMemory>
        ensures ok { OnOk result (self.new ≡ put self.old number value) }
        ensures err { OnErr result (self.new ≡ self.old) }
    {
        let value = Boxed::new(self.alloc, value)?;
        self.table.put(number, value)
    }

    /// Takes out every value under a number, and gives the first one.
    pub fn take(&mut self, number: u64) -> Option<T>
        ensures first { result ≡ at self.old number }
        ensures others { self.new ≡ without self.old number }
    {
        match self.table.take(number) {
            Some(boxed) => Some(boxed.into_inner()),
            None => None,
        }
    }

    /// Takes out the first value under a number.
    pub fn take_first(&mut self, number: u64) -> Option<T>
        ensures within { IfSome result (λ value. IsTaken self.old self.new number value) }
        ensures absent { IfNone result (at self.old number ≡ None) }
        ensures left { IfNone result (self.new ≡ self.old) }
    {
        match self.table.take_first(number) {
            Some(boxed) => Some(boxed.into_inner()),
            None => None,
        }
    }

    /// Takes the row off that was put at the end.
    pub fn take_last(&mut self)
        ensures off { (rows : List (ℕ × T)) (row : ℕ × T) → self.old ≡ rows ++ row ∷ [] → self.new ≡ rows }
    {
        self.table.take_last();
    }

    /// Changes the first value under a number where it stands, where there is one, and else does nothing.
    pub fn change<F: FnOnce(&mut T) -> Result<(), OutOfMemory>>(
        &mut self,
        number: u64,
        change: F,
    ) -> Result<(), OutOfMemory>
        requires { F.IsAlwaysCallable change }
        ensures absent { at self.old number ≡ None → self.new ≡ self.old }
        ensures changed { (old : T) → at self.old number ≡ Some old →
            (new : T) × FnOnceReturnsAtMut F.FnOnce change old result new
            × (self.new ≡ put self.old number new) }
    {
        self.table.change_boxed(number, change)
    }
}
