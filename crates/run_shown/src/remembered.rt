//! What scopes were before a unit changed them.

ghost use Rattle.std.specs.Prelude.{◌≡◌, ◌++◌, ◌∷◌, [], true, is_some, IfOk, OnOk};
ghost use Rattle.std.specs.Option.{option_copied};
ghost use Rattle.rt_model.specs.Lists.{at};
ghost use Rattle.run_shown.specs.Remembered.{rows_held, was_in};

use rt_values::{Boxed, OutOfMemory};
use run_table::Table;
use std::alloc::Global;
use std::marker::Model;
use std::mem;

/// Where it is kept: one row alone here, several in a table.
#[derive(Drop)]
pub(crate) enum Held<T> {
    None,
    One((u64, Option<T>)),
    Many(Table<Option<Boxed<T>>>),
}

/// What scopes were, under their numbers, in the order in which they were put in; None for each that
/// was not live. One alone, as of most reruns, takes no room of its own.
#[derive(Drop)]
pub struct Remembered<T> {
    held: Held<T>,
}

impl<T> Model for Remembered<T> {
    ghost use Rattle.std.specs.Prelude.{List, Option, ℕ};
    ghost use Rattle.std.specs.Coded.{coded_list, coded_option, coded×, coded_ℕ};
    ghost use Rattle.run_shown.specs.Remembered.{rows_held};

    ghost Value = { List (ℕ × Option T) };

    ghost coded = { coded_list (coded× coded_ℕ (coded_option T.code)) };

    ghost view = { λ remembered. rows_held remembered.held };
}

impl<T> Remembered<T> {
    /// Nothing is remembered.
    pub fn new() -> Remembered<T>
        ensures empty { result ≡ [] }
    {
        Remembered { held: Held::None }
    }

    /// Whether it is remembered what a scope was.
    pub fn has(&self, scope: u64) -> bool
        ensures { result ≡ is_some (at self.now scope) }
    {
        match &self.held {
            Held::None => false,
            Held::One(row) => is_under(row, scope),
            Held::Many(rows) => rows.get(scope).is_some(),
        }
    }

    /// What a scope was. None where nothing is remembered of it, and where it was not live.
    pub(crate) fn get(&self, scope: u64) -> Option<&T>
        ensures { option_copied result ≡ was_in (at self.now scope) }
    {
        match &self.held {
            Held::None => None,
            Held::One(row) => stood_under(row, scope),
            Held::Many(rows) => unboxed(rows.get(scope)),
        }
    }

    /// What is kept, to read.
    pub(crate) fn held(&self) -> &Held<T>
        ensures { rows_held result.now ≡ self.now }
    {
        &self.held
    }
}

impl<T: Drop> Remembered<T> {
    /// Nothing is remembered any more.
    pub fn clear(&mut self)
        ensures empty { self.new ≡ [] }
    {
        self.held = Held::None;
    }

    /// Puts in what a scope was, behind the others.
    pub fn push(&mut self, alloc: Global, scope: u64, stood: Option<T>) -> Result<(), OutOfMemory>
        ensures ok { OnOk result (self.new ≡ self.old ++ (scope, stood) ∷ []) }
    {
        // The first one is moved once.
        if holds_none(&self.held) {
            self.held = Held::One((scope, stood));
            return Ok(());
        }
        match mem::replace(&mut self.held, Held::None) {
            Held::None => {
                self.held = Held::One((scope, stood));
                Ok(())
            }
            Held::One(first) => {
                self.held = Held::Many(two_rows(alloc, first, scope, stood)?);
                Ok(())
            }
            Held::Many(rows) => {
                self.held = Held::Many(one_more(alloc, rows, scope, stood)?);
                Ok(())
            }
        }
    }
}

// Whether there is no row.
fn holds_none<T>(held: &Held<T>) -> bool
    ensures { result ≡ true → rows_held held.now ≡ [] }
{
    match held {
        Held::None => true,
        Held::One(_) => false,
        Held::Many(_) => false,
    }
}

// Whether a row is that of the scope.
fn is_under<T>(row: &(u64, Option<T>), scope: u64) -> bool
    ensures { result ≡ is_some (at (row.now ∷ []) scope) }
{
    row.0 == scope
}

// What a row says of a scope.
fn stood_under<T>(row: &(u64, Option<T>), scope: u64) -> Option<&T>
    ensures { option_copied result ≡ was_in (at (row.now ∷ []) scope) }
{
    if row.0 != scope {
        return None;
    }
    match &row.1 {
        Some(stood) => Some(stood),
        None => None,
    }
}

// What a box holds.
fn unboxed<T>(found: Option<&Option<Boxed<T>>>) -> Option<&T>
    ensures { option_copied result ≡ was_in (option_copied found.entry) }
{
    match found {
        Some(Some(stood)) => Some(stood.get()),
        Some(None) => None,
        None => None,
    }
}

// Two rows, in boxes.
fn two_rows<T: Drop>(
    alloc: Global,
    first: (u64, Option<T>),
    scope: u64,
    stood: Option<T>,
) -> Result<Table<Option<Boxed<T>>>, OutOfMemory>
    ensures { IfOk result (λ rows. rows ≡ first ∷ (scope, stood) ∷ []) }
{
    let (number, was) = first;
    let rows = one_more(alloc, Table::new(alloc), number, was)?;
    one_more(alloc, rows, scope, stood)
}

// One row more, in a box.
fn one_more<T: Drop>(
    alloc: Global,
    mut rows: Table<Option<Boxed<T>>>,
    scope: u64,
    stood: Option<T>,
) -> Result<Table<Option<Boxed<T>>>, OutOfMemory>
    ensures { IfOk result (λ more. more ≡ rows ++ (scope, stood) ∷ []) }
{
    rows.push(scope, boxed(alloc, stood)?)?;
    Ok(rows)
}

// What a row says, in a box.
fn boxed<T: Drop>(alloc: Global, stood: Option<T>) -> Result<Option<Boxed<T>>, OutOfMemory>
    ensures { IfOk result (λ held. held ≡ stood) }
{
    match stood {
        Some(stood) => Ok(Some(Boxed::new(alloc, stood)?)),
        None => Ok(None),
    }
}
