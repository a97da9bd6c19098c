//! A table of numbered values, in the order in which they came.
ghost use Rattle.std.specs.Prelude.{◌≡◌, ℕ, List, [], ◌∷◌, ◌++◌, ◌<◌, ◌-◌, length, get_or, remove, slice_set, Option, Some, None, true, IfSome, IfNone, OnOk, OnErr};
ghost use Rattle.std.specs.Option.{option_copied};
ghost use Rattle.std.specs.Fn.{FnOnceReturnsAtMut};
ghost use Rattle.rt_model.specs.Lists.{at, put, without};
ghost use Rattle.run_table.specs.Found.{IsFirst, IsTaken, Ascends};

use crate::firsts::{first_row, relisted};
use rt_values::{Boxed, OutOfMemory};
use std::alloc::Global;
use std::collections::BTreeMap;
use std::marker::Model;
use std::mem;

/// Values under numbers, in the order in which they came. While the numbers rise, a look for one is a
/// binary search. Once they don't, it is listed where each stands first, until a row goes.
#[derive(Drop)]
pub struct Table<T> {
    rows: Vec<(u64, T)>,
    rising: bool,
    /// Whether the first row of each number is listed.
    listed: bool,
    firsts: BTreeMap<u64, usize>,
}

impl<T> Model for Table<T> {
    ghost use Rattle.std.specs.Prelude.{List, ℕ};
    ghost use Rattle.std.specs.Coded.{coded_list, coded×, coded_ℕ};
    ghost use Rattle.run_table.specs.Found.{IsMarked};

    ghost Value = { List (ℕ × T) };

    ghost coded = { coded_list (coded× coded_ℕ T.code) };

    ghost view = { λ table. table.rows.items };

    ghost invariant = { λ table. IsMarked table.rising table.listed table.firsts table.rows.items };
}

impl<T> Table<T> {
    /// No value.
    pub fn new(alloc: Global) -> Table<T>
        ensures empty { result ≡ [] }
    {
        Table {
            rows: Vec::new(alloc),
            rising: true,
            listed: false,
            firsts: BTreeMap::new(alloc),
        }
    }

    /// The values with their numbers, in order.
    pub fn as_slice(&self) -> &[(u64, T)]
        ensures rows { result.now ≡ self.now }
    {
        self.rows.as_slice()
    }

    /// Whether the numbers are known to rise from row to row. They are where each that was put at the
    /// end was above the last one.
    pub fn rises(&self) -> bool
        ensures rises { result ≡ true → Ascends self.now }
    {
        self.rising
    }

    /// The first value under a number. A binary search, and where the numbers don't rise as it is listed,
    /// or a walk.
    #[inline(always)]
    pub fn get(&self, number: u64) -> Option<&T>
        ensures value { option_copied result ≡ at self.now number }
    {
        match self.index_of(number) {
            Some(index) => Some(&self.rows[index].1),
            None => None,
        }
    }

    // The index of the first row of a number.
    #[inline(always)]
    fn index_of(&self, number: u64) -> Option<usize>
        ensures within { IfSome result (λ index. index < length self.now) }
        ensures first { IfSome result (λ index. IsFirst self.now number index) }
        ensures own { IfSome result (λ index.
            (row : ℕ × T) → (get_or self.now index row).0 ≡ number) }
        ensures absent { IfNone result (at self.now number ≡ None) }
    {
        let rows = self.rows.as_slice();
        if self.rising {
            near(rows, number)
        } else {
            first_row(rows, self.listed, &self.firsts, number)
        }
    }
}

impl<T: Drop> Table<T> {
    /// Puts one more value at the end.
    pub fn push(&mut self, number: u64, value: T) -> Result<(), OutOfMemory>
        ensures ok { OnOk result (self.new ≡ self.old ++ (number, value) ∷ []) }
        ensures err { OnErr result (self.new ≡ self.old) }
    {
        let rising = match self.rows.last() {
            Some(last) => self.rising && last.0 < number,
            None => true,
        };
        self.rows.push((number, value))?;
        let lost = self.rising && !rising;
        let rows = self.rows.as_slice();
        self.listed = relisted(rows, number, self.listed, lost, &mut self.firsts);
        self.rising = rising;
        Ok(())
    }

    /// Puts a value in the place of the first one under its number, or at the end.
    pub fn put(&mut self, number: u64, value: T) -> Result<(), OutOfMemory>
        ensures ok { OnOk result (self.new ≡ put self.old number value) }
        ensures err { OnErr result (self.new ≡ self.old) }
    {
        match self.index_of(number) {
            Some(index) => {
                self.rows[index] = (number, value);
                Ok(())
            }
            None => self.push(number, value),
        }
    }

    /// Takes out every value under a number.
    pub fn remove(&mut self, number: u64)
        ensures others { self.new ≡ without self.old number }
    {
        if self.rising {
            self.remove_one(number);
        } else {
            self.remove_each(number);
        }
    }

    // Takes out the one value under a number, among numbers that rise.
    fn remove_one(&mut self, number: u64)
        requires ascending { Ascends self.old }
        ensures others { self.new ≡ without self.old number }
    {
        match self.index_of(number) {
            Some(index) => self.remove_at(index),
            None => {}
        }
    }

    // Takes out every value under a number, whatever their order.
    fn remove_each(&mut self, number: u64)
        ensures others { self.new ≡ without self.old number }
    {
        while let Some(index) = self.index_of(number) {
            self.remove_at(index);
        }
    }

    /// Takes out every value under a number, and gives the first one.
    pub fn take(&mut self, number: u64) -> Option<T>
        ensures first { result ≡ at self.old number }
        ensures others { self.new ≡ without self.old number }
    {
        if self.rising {
            self.take_one(number)
        } else {
            self.take_each(number)
        }
    }

    // Takes out the one value under a number, among numbers that rise, and gives it.
    fn take_one(&mut self, number: u64) -> Option<T>
        requires ascending { Ascends self.old }
        ensures first { result ≡ at self.old number }
        ensures others { self.new ≡ without self.old number }
    {
        let index = self.index_of(number)?;
        self.listed = false;
        let (_number, value) = self.rows.remove(index);
        Some(value)
    }

    // Takes out every value under a number, whatever their order, and gives the first one.
    fn take_each(&mut self, number: u64) -> Option<T>
        ensures first { result ≡ at self.old number }
        ensures others { self.new ≡ without self.old number }
    {
        let index = self.index_of(number)?;
        self.listed = false;
        let (_number, value) = self.rows.remove(index);
        self.remove_each(number);
        Some(value)
    }

    /// Takes out the first value under a number.
    pub fn take_first(&mut self, number: u64) -> Option<T>
        ensures within { IfSome result (λ value. IsTaken self.old self.new number value) }
        ensures absent { IfNone result (at self.old number ≡ None) }
        ensures left { IfNone result (self.new ≡ self.old) }
    {
        let index = self.index_of(number)?;
        self.listed = false;
        let (_number, value) = self.rows.remove(index);
        Some(value)
    }

    /// Puts a value in the place of the first one under its number, and gives that one. Where there is
    /// none, nothing is put.
    pub fn replace(&mut self, number: u64, value: T) -> Option<T>
        ensures former { result ≡ at self.old number }
        ensures put { IfSome result (λ _. self.new ≡ put self.old number value) }
        ensures absent { IfNone result (self.new ≡ self.old) }
    {
        match self.index_of(number) {
            Some(index) => {
                let (_number, former) = mem::replace(&mut self.rows[index], (number, value));
                Some(former)
            }
            None => None,
        }
    }

    /// Takes the row off that was put at the end.
    pub fn take_last(&mut self)
        ensures off { (rows : List (ℕ × T)) (row : ℕ × T) → self.old ≡ rows ++ row ∷ [] → self.new ≡ rows }
    {
        let count = self.as_slice().len();
        if count == 0 {
            return;
        }
        self.remove_at(count - 1);
    }

    /// Takes out the value at an index from 0.
    pub fn remove_at(&mut self, index: usize)
        requires within { index < length self.old }
        ensures others { self.new ≡ remove self.old index }
    {
        self.listed = false;
        let _row = self.rows.remove(index);
    }

    /// Changes the first value under a number, where there is one, and else does nothing.
    pub fn change<F: FnOnce(&mut T) -> Result<(), OutOfMemory>>(
        &mut self,
        number: u64,
        change: F,
    ) -> Result<(), OutOfMemory>
        requires { F.IsAlwaysCallable change }
        ensures absent { at self.old number ≡ None → self.new ≡ self.old }
        ensures changed { (old : T) → at self.old number ≡ Some old →
            (new : T) × FnOnceReturnsAtMut F.FnOnce change old result new
            × (self.new ≡ put self.old number new) }
    {
        match self.index_of(number) {
            Some(index) => change(&mut self.rows[index].1),
            None => Ok(()),
        }
    }

    /// Changes the value at an index from 0. Its number stays.
    pub fn change_at<F: FnOnce(&mut T) -> Result<(), OutOfMemory>>(
        &mut self,
        index: usize,
        change: F,
    ) -> Result<(), OutOfMemory>
        requires callable { F.IsAlwaysCallable change }
        requires within { index < length self.old }
        ensures { (row : ℕ × T) → (new : T)
            × FnOnceReturnsAtMut F.FnOnce change (get_or self.old index row).1 result new
            × (self.new ≡ slice_set self.old index ((get_or self.old index row).0, new)) }
    {
        change(&mut self.rows[index].1)
    }
}

// A table of values that stand in boxes.
impl<T: Drop> Table<Boxed<T>> {
    // Changes the first value under a number in its box, where there is one, and else does nothing.
    pub(crate) fn change_boxed<F: FnOnce(&mut T) -> Result<(), OutOfMemory>>(
        &mut self,
        number: u64,
        change: F,
    ) -> Result<(), OutOfMemory>
        requires { F.IsAlwaysCallable change }
        ensures absent { at self.old number ≡ None → self.new ≡ self.old }
        ensures changed { (old : T) → at self.old number ≡ Some old →
            (new : T) × FnOnceReturnsAtMut F.FnOnce change old result new
            × (self.new ≡ put self.old number new) }
    {
        match self.index_of(number) {
            Some(index) => self.rows[index].1.change(change),
            None => Ok(()),
        }
    }
}

// The index of the row of a number, among numbers that rise. It is looked for where it stands while no
// row went.
#[inline(always)]
pub(crate) fn near<T>(rows: &[(u64, T)], number: u64) -> Option<usize>
    requires ascending { Ascends rows.now }
    ensures within { IfSome result (λ index. index < length rows.now) }
    ensures first { IfSome result (λ index. IsFirst rows.now number index) }
    ensures own { IfSome result (λ index.
        (row : ℕ × T) → (get_or rows.now index row).0 ≡ number) }
    ensures absent { IfNone result (at rows.now number ≡ None) }
{
    let guess = number as usize;
    if stands_at(rows, guess, number) {
        Some(guess)
    } else {
        from_behind(rows, number)
    }
}

// The index of the row of a number, among numbers that rise. It is looked for where it stands while each
// row that went stood before it, and then by halves.
#[inline(never)]
fn from_behind<T>(rows: &[(u64, T)], number: u64) -> Option<usize>
    requires ascending { Ascends rows.now }
    ensures within { IfSome result (λ index. index < length rows.now) }
    ensures first { IfSome result (λ index. IsFirst rows.now number index) }
    ensures own { IfSome result (λ index.
        (row : ℕ × T) → (get_or rows.now index row).0 ≡ number) }
    ensures absent { IfNone result (at rows.now number ≡ None) }
{
    let Some(last) = last_number(rows) else {
        return None;
    };
    if last < number {
        return None;
    }
    let back = (last - number) as usize;
    let guess = rows.len().saturating_sub(1).saturating_sub(back);
    if stands_at(rows, guess, number) {
        Some(guess)
    } else {
        search(rows, number)
    }
}

// The number of the last row.
fn last_number<T>(rows: &[(u64, T)]) -> Option<u64>
    ensures last { IfSome result (λ number.
        (row : ℕ × T) → (get_or rows.now (length rows.now - 1) row).0 ≡ number) }
    ensures none { IfNone result (length rows.now ≡ 0) }
{
    match rows.last() {
        Some(row) => Some(row.0),
        None => None,
    }
}

// Whether the row at an index has a number.
#[inline(always)]
fn stands_at<T>(rows: &[(u64, T)], index: usize, number: u64) -> bool
    requires ascending { Ascends rows.now }
    ensures within { result ≡ true → index < length rows.now }
    ensures first { result ≡ true → IsFirst rows.now number index }
    ensures own { result ≡ true → (row : ℕ × T) → (get_or rows.now index row).0 ≡ number }
{
    index < rows.len() && rows[index].0 == number
}

// The index of the row of a number, among numbers that rise.
fn search<T>(rows: &[(u64, T)], number: u64) -> Option<usize>
    requires ascending { Ascends rows.now }
    ensures within { IfSome result (λ index. index < length rows.now) }
    ensures first { IfSome result (λ index. IsFirst rows.now number index) }
    ensures own { IfSome result (λ index.
        (row : ℕ × T) → (get_or rows.now index row).0 ≡ number) }
    ensures absent { IfNone result (at rows.now number ≡ None) }
{
    rows.binary_search_by_key(&number, |row| row.0).ok()
}
