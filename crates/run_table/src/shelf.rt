//! A table whose rows stay where they are when one goes.
ghost use Rattle.std.specs.Prelude.{◌≡◌, ℕ, [], ◌∷◌, ◌++◌, ◌<◌, ◌+◌, length, get_or, nat_eq, Option, None, true, IfSome, IfNone, OnOk, OnErr};
ghost use Rattle.std.specs.Option.{option_copied};
ghost use Rattle.rt_model.specs.Lists.{at, without};
ghost use Rattle.run_table.specs.Stands.{live, has_value, Rises, RisesIf, IsLast};

use crate::table::near;
use rt_values::OutOfMemory;
use std::alloc::Global;
use std::marker::Model;

/// Values under numbers, in the order in which they came. While the numbers rise, a value that goes
/// leaves its row empty, and no other row moves. Once as many went as half of the rows, the empty rows
/// go together.
#[derive(Drop)]
pub struct Shelf<T> {
    rows: Vec<(u64, Option<T>)>,
    rising: bool,
    gone: usize,
}

impl<T> Model for Shelf<T> {
    ghost use Rattle.std.specs.Prelude.{List, ℕ};
    ghost use Rattle.std.specs.Coded.{coded_list, coded×, coded_ℕ};
    ghost use Rattle.run_table.specs.Stands.{live, RisesIf};

    ghost Value = { List (ℕ × T) };

    ghost coded = { coded_list (coded× coded_ℕ T.code) };

    ghost view = { λ shelf. live shelf.rows.items };

    ghost invariant = { λ shelf. RisesIf shelf.rising shelf.rows.items };
}

impl<T> Shelf<T> {
    /// No value.
    pub fn new(alloc: Global) -> Shelf<T>
        ensures empty { result ≡ [] }
    {
        Shelf {
            rows: Vec::new(alloc),
            rising: true,
            gone: 0,
        }
    }

    /// The first value under a number. It is looked for as a table's is.
    pub fn get(&self, number: u64) -> Option<&T>
        ensures value { option_copied result ≡ at self.now number }
    {
        value_of(self.rows.as_slice(), self.rising, number)
    }

    /// The value behind all others. Where rows behind it are empty, none is answered.
    pub fn last(&self) -> Option<&T>
        ensures last { IfSome (option_copied result) (λ value. IsLast self.now value) }
    {
        last_value(self.rows.as_slice())
    }
}

impl<T: Drop> Shelf<T> {
    /// Puts one more value at the end.
    pub fn push(&mut self, number: u64, value: T) -> Result<(), OutOfMemory>
        ensures ok { OnOk result (self.new ≡ self.old ++ (number, value) ∷ []) }
        ensures err { OnErr result (self.new ≡ self.old) }
    {
        let rows = self.rows.as_slice();
        let rising = keeps_rising(rows, self.rising, number);
        self.rows.push((number, Some(value)))?;
        self.rising = rising;
        Ok(())
    }

    /// Takes out every value under a number.
    pub fn remove(&mut self, number: u64)
        ensures others { self.new ≡ without self.old number }
    {
        empty(&mut self.rows, self.rising, number);
        self.gone = self.gone.saturating_add(1);
        self.tidy();
    }

    // Takes the empty rows out, where as many values went since this was done as half of the rows.
    fn tidy(&mut self)
        ensures same { self.new ≡ self.old }
    {
        if self.gone < self.rows.len() / 2 {
            return;
        }
        self.rows.retain(|row| row.1.is_some());
        self.gone = 0;
    }
}

// The first value under a number.
fn value_of<T>(rows: &[(u64, Option<T>)], rising: bool, number: u64) -> Option<&T>
    requires rises { RisesIf rising rows.now }
    ensures { option_copied result ≡ at (live rows.now) number }
{
    match index_of(rows, rising, number) {
        Some(index) => rows[index].1.as_ref(),
        None => None,
    }
}

// The index of the row that answers for a number: it has what is the first value under it, or none.
fn index_of<T>(rows: &[(u64, Option<T>)], rising: bool, number: u64) -> Option<usize>
    requires rises { RisesIf rising rows.now }
    ensures within { IfSome result (λ index. index < length rows.now) }
    ensures value { IfSome result (λ index. (row : ℕ × Option T) →
        (get_or rows.now index row).1 ≡ at (live rows.now) number) }
    ensures absent { IfNone result (at (live rows.now) number ≡ None) }
{
    if rising {
        rising_index(rows, number)
    } else {
        first_index(rows, number)
    }
}

// The same among numbers that rise, where one row has the number at most.
fn rising_index<T>(rows: &[(u64, Option<T>)], number: u64) -> Option<usize>
    requires rises { Rises 0 rows.now }
    ensures within { IfSome result (λ index. index < length rows.now) }
    ensures value { IfSome result (λ index. (row : ℕ × Option T) →
        (get_or rows.now index row).1 ≡ at (live rows.now) number) }
    ensures absent { IfNone result (at (live rows.now) number ≡ None) }
{
    match near(rows, number) {
        Some(index) => Some(index),
        None => None,
    }
}

// The same whatever their order: the first row that has a value under the number.
fn first_index<T>(rows: &[(u64, Option<T>)], number: u64) -> Option<usize>
    ensures within { IfSome result (λ index. index < length rows.now) }
    ensures value { IfSome result (λ index. (row : ℕ × Option T) →
        (get_or rows.now index row).1 ≡ at (live rows.now) number) }
    ensures absent { IfNone result (at (live rows.now) number ≡ None) }
{
    for index in 0..rows.len() {
        if has_value(&rows[index], number) {
            return Some(index);
        }
    }
    None
}

// Whether a row of a number has a value.
fn has_value<T>(row: &(u64, Option<T>), number: u64) -> bool
    ensures { result ≡ has_value row.now number }
{
    is_number(row.0, number) && row.1.is_some()
}

// Whether two numbers are the same.
fn is_number(number: u64, other: u64) -> bool
    ensures { result ≡ nat_eq number other }
{
    number == other
}

// Whether the numbers rise with one more at the end.
fn keeps_rising<T>(rows: &[(u64, Option<T>)], rising: bool, number: u64) -> bool
    requires rises { RisesIf rising rows.now }
    ensures { result ≡ true → (value : Option T) → Rises 0 (rows.now ++ (number, value) ∷ []) }
{
    if rising {
        return is_above(rows, number);
    }
    false
}

// Whether a number is above the last one.
fn is_above<T>(rows: &[(u64, Option<T>)], number: u64) -> bool
    ensures { result ≡ true → (k : ℕ) (row : ℕ × Option T) → k + 1 ≡ length rows.now
        → (get_or rows.now k row).0 < number }
{
    match rows.last() {
        Some(last) => last.0 < number,
        None => true,
    }
}

// The value in the last row.
fn last_value<T>(rows: &[(u64, Option<T>)]) -> Option<&T>
    ensures { IfSome (option_copied result) (λ value. IsLast (live rows.now) value) }
{
    match rows.last() {
        Some(last) => last.1.as_ref(),
        None => None,
    }
}

// Leaves the row of a number empty among numbers that rise, and else takes out each row of it.
fn empty<T: Drop>(rows: &mut Vec<(u64, Option<T>)>, rising: bool, number: u64)
    requires rises { RisesIf rising rows.old.items }
    ensures rises { RisesIf rising rows.new.items }
    ensures others { live rows.new.items ≡ without (live rows.old.items) number }
{
    if rising {
        empty_one(rows, number);
        return;
    }
    rows.retain(|row| row.0 != number);
}

// Leaves the row of a number empty, among numbers that rise.
fn empty_one<T: Drop>(rows: &mut Vec<(u64, Option<T>)>, number: u64)
    requires rises { Rises 0 rows.old.items }
    ensures rises { Rises 0 rows.new.items }
    ensures others { live rows.new.items ≡ without (live rows.old.items) number }
{
    let Some(index) = near(rows.as_slice(), number) else {
        return;
    };
    rows[index] = (number, None);
}
