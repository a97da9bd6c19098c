//! Members' seats by number: of numbers that came in rising order in rows, of all others in a map.
ghost use Rattle.std.specs.Prelude.{◌≡◌, ℕ, Option, Some, None, true, [], ◌<◌, ◌≤◌, ◌+◌, ◌-◌, ◌^◌, ◌==◌, length, get_or, slice_set, is_some, if◌then◌else◌, IsTrue, IfSome, IfNone, OnOk, OnErr};
ghost use Rattle.std.specs.Option.{option_copied};
ghost use Rattle.std.specs.Ordering.{nat_cmp};
ghost use Rattle.std.specs.BTreeMap.{get, keys};
ghost use Rattle.rt_sched.specs.Seats.{seat_of, members_of, taken, Rises, IsSeated};
ghost use Rattle.rt_sched.specs.declared.seating.Seat.{Seat};

use crate::place::Place;
use crate::tree::Node;
use rt_values::OutOfMemory;
use std::alloc::Global;
use std::collections::BTreeMap;
use std::marker::Model;
use std::mem;

/// Where a member's node is.
#[derive(Drop)]
pub enum Seat {
    /// With its member, who doesn't wait.
    Home(Box<Node>),
    /// In the tree, at this place.
    InLine(Place),
}

/// Members by number, each with a seat. A member whose number is above that of the last row comes
/// behind it, and where it goes its row is left empty. Once as many went as half of the rows, the empty
/// rows go together. Who has no row is in the map.
#[derive(Drop)]
pub struct Seating {
    rows: Vec<(u64, Option<Seat>)>,
    gone: usize,
    others: BTreeMap<u64, Seat>,
}

impl Model for Seating {
    ghost use Rattle.std.specs.Prelude.{List, ℕ, ◌++◌};
    ghost use Rattle.rt_sched.specs.Seats.{taken, Rises};
    ghost use Rattle.rt_sched.specs.declared.seating.Seat.{Seat};

    ghost Value = { List (ℕ × Seat) };

    ghost view = { λ seats. taken seats.rows.items ++ seats.others.entries };

    ghost invariant = { λ seats. Rises 0 seats.rows.items };
}

impl Seating {
    /// No member.
    pub fn new(alloc: Global) -> Seating
        ensures empty { result ≡ [] }
    {
        Seating {
            rows: Vec::new(alloc),
            gone: 0,
            others: BTreeMap::new(alloc),
        }
    }

    /// A member's seat. It is looked for where the number stands while no row went, where it stands while
    /// each row that went stood before it, and then by halves.
    pub fn get(&self, number: u64) -> Option<&Seat>
        ensures seat { option_copied result ≡ seat_of self.now number }
    {
        match row_seat(self.rows.as_slice(), number) {
            Some(seat) => Some(seat),
            None => other_seat(&self.others, number),
        }
    }

    /// Whether a number is a member's.
    pub fn has(&self, number: u64) -> bool
        ensures { result ≡ is_some (seat_of self.now number) }
    {
        self.get(number).is_some()
    }

    /// Seats a member.
    pub fn insert(&mut self, number: u64, seat: Seat) -> Result<(), OutOfMemory>
        ensures ok { OnOk result (IsSeated number (Some seat) self.old self.new) }
        ensures err { OnErr result (self.new ≡ self.old) }
    {
        if is_above(self.rows.as_slice(), number) {
            self.rows.push((number, Some(seat)))?;
            return Ok(());
        }
        match find(self.rows.as_slice(), number) {
            Some(index) => {
                fill_row(&mut self.rows, index, number, seat);
                Ok(())
            }
            None => {
                self.others.insert(number, seat)?;
                Ok(())
            }
        }
    }

    /// Changes a member's seat for another, and gives the former one. Where there is no such member
    /// nothing is changed.
    pub fn exchange(&mut self, number: u64, seat: Seat) -> Option<Seat>
        ensures former { result ≡ seat_of self.old number }
        ensures members { members_of self.new ≡ members_of self.old }
        ensures seated { IfSome result (λ _. IsSeated number (Some seat) self.old self.new) }
        ensures absent { IfNone result ((q : _) → seat_of self.new q ≡ seat_of self.old q) }
    {
        match row_of(self.rows.as_slice(), number) {
            Some(index) => change_row(&mut self.rows, index, number, Some(seat)),
            None => exchange_other(&mut self.others, number, seat),
        }
    }

    /// Takes a member out, and gives its seat.
    pub fn remove(&mut self, number: u64) -> Option<Seat>
        ensures seat { result ≡ seat_of self.old number }
        ensures left { IsSeated number None self.old self.new }
    {
        let other = take_other(&mut self.others, number);
        match take_row(&mut self.rows, number) {
            Some(found) => {
                self.gone = self.gone.saturating_add(1);
                self.tidy();
                Some(found)
            }
            None => other,
        }
    }

    // Takes the empty rows out, where as many went since this was done as half of the rows.
    fn tidy(&mut self)
        ensures same { self.new ≡ self.old }
    {
        if self.gone < self.rows.len() / 2 {
            return;
        }
        self.rows.retain(|row| row.1.is_some());
        self.gone = 0;
    }

    /// As many as there are members, or more.
    pub fn room(&self) -> u64
        ensures all { length self.now ≤ result }
        ensures bound { result < 2 ^ 64 - 1 }
    {
        self.rows.len() as u64 + self.others.len() as u64
    }
}

// The seat in the row of a number.
fn row_seat(rows: &[(u64, Option<Seat>)], number: u64) -> Option<&Seat>
    requires rises { Rises 0 rows.now }
    ensures { option_copied result ≡ seat_of (taken rows.now) number }
{
    match find(rows, number) {
        Some(index) => rows[index].1.as_ref(),
        None => None,
    }
}

// The seat of a number that has no row.
fn other_seat(others: &BTreeMap<u64, Seat>, number: u64) -> Option<&Seat>
    ensures { option_copied result ≡ get nat_cmp others.now number }
{
    if others.is_empty() {
        return None;
    }
    others.get(&number)
}

// Puts a seat into the row of a number.
fn fill_row(rows: &mut Vec<(u64, Option<Seat>)>, index: usize, number: u64, seat: Seat)
    requires rises { Rises 0 rows.old.items }
    requires within { index < length rows.old.items }
    requires own { (row : ℕ × Option Seat) → (get_or rows.old.items index row).0 ≡ number }
    ensures rises { Rises 0 rows.new.items }
    ensures seated { IsSeated number (Some seat) (taken rows.old.items) (taken rows.new.items) }
{
    let _former = change_row(rows, index, number, Some(seat));
}

// Puts a seat, or none, into the row of a number, and gives the one that was in it.
fn change_row(
    rows: &mut Vec<(u64, Option<Seat>)>,
    index: usize,
    number: u64,
    seat: Option<Seat>,
) -> Option<Seat>
    requires rises { Rises 0 rows.old.items }
    requires within { index < length rows.old.items }
    requires own { (row : ℕ × Option Seat) → (get_or rows.old.items index row).0 ≡ number }
    ensures rises { Rises 0 rows.new.items }
    ensures set { rows.new.items ≡ slice_set rows.old.items index (number, seat) }
    ensures former { result ≡ seat_of (taken rows.old.items) number }
    ensures seated { IsSeated number seat (taken rows.old.items) (taken rows.new.items) }
{
    let (_number, former) = mem::replace(&mut rows[index], (number, seat));
    former
}

// Leaves the row of a number empty, and gives the seat that was in it.
fn take_row(rows: &mut Vec<(u64, Option<Seat>)>, number: u64) -> Option<Seat>
    requires rises { Rises 0 rows.old.items }
    ensures rises { Rises 0 rows.new.items }
    ensures seat { result ≡ seat_of (taken rows.old.items) number }
    ensures left { IsSeated number None (taken rows.old.items) (taken rows.new.items) }
{
    match find(rows.as_slice(), number) {
        Some(index) => change_row(rows, index, number, None),
        None => None,
    }
}

// Takes out the seat of a number that has no row.
fn take_other(others: &mut BTreeMap<u64, Seat>, number: u64) -> Option<Seat>
    ensures seat { result ≡ get nat_cmp others.old number }
    ensures left { (q : ℕ) → get nat_cmp others.new q
        ≡ (if q == number then None else get nat_cmp others.old q) }
{
    if others.is_empty() {
        return None;
    }
    others.remove(&number)
}

// Changes the seat of a number that has no row for another, and gives the former one.
fn exchange_other(others: &mut BTreeMap<u64, Seat>, number: u64, seat: Seat) -> Option<Seat>
    ensures former { result ≡ get nat_cmp others.old number }
    ensures members { keys others.new ≡ keys others.old }
    ensures seated { IfSome result (λ _. (q : ℕ) → get nat_cmp others.new q
        ≡ (if q == number then Some seat else get nat_cmp others.old q)) }
    ensures absent { IfNone result
        ((q : ℕ) → get nat_cmp others.new q ≡ get nat_cmp others.old q) }
{
    if others.is_empty() {
        return None;
    }
    let other = others.get_mut(&number)?;
    Some(mem::replace(other, seat))
}

// The index of the row of a number, where a seat is in it.
fn row_of(rows: &[(u64, Option<Seat>)], number: u64) -> Option<usize>
    requires rises { Rises 0 rows.now }
    ensures within { IfSome result (λ index. index < length rows.now) }
    ensures own { IfSome result (λ index. (row : ℕ × Option Seat)
        → (get_or rows.now index row).0 ≡ number) }
    ensures has { IfSome result (λ _. is_some (seat_of (taken rows.now) number) ≡ true) }
    ensures absent { IfNone result (seat_of (taken rows.now) number ≡ None) }
{
    match find(rows, number) {
        Some(index) => {
            if rows[index].1.is_some() {
                Some(index)
            } else {
                None
            }
        }
        None => None,
    }
}

// The index of the row of a number. It is looked for where it stands while no row went.
fn find(rows: &[(u64, Option<Seat>)], number: u64) -> Option<usize>
    requires rises { Rises 0 rows.now }
    ensures within { IfSome result (λ index. index < length rows.now) }
    ensures own { IfSome result (λ index. (row : ℕ × Option Seat)
        → (get_or rows.now index row).0 ≡ number) }
    ensures absent { IfNone result (seat_of (taken rows.now) number ≡ None) }
{
    let guess = number as usize;
    if stands_at(rows, guess, number) {
        Some(guess)
    } else {
        find_behind(rows, number)
    }
}

// The same. It is looked for where it stands while each row that went stood before it, and then by
// halves.
fn find_behind(rows: &[(u64, Option<Seat>)], number: u64) -> Option<usize>
    requires rises { Rises 0 rows.now }
    ensures within { IfSome result (λ index. index < length rows.now) }
    ensures own { IfSome result (λ index. (row : ℕ × Option Seat)
        → (get_or rows.now index row).0 ≡ number) }
    ensures absent { IfNone result (seat_of (taken rows.now) number ≡ None) }
{
    let Some(last) = last_number(rows) else {
        return None;
    };
    if last < number {
        return None;
    }
    let back = (last - number) as usize;
    let guess = rows.len().saturating_sub(1).saturating_sub(back);
    if stands_at(rows, guess, number) {
        Some(guess)
    } else {
        search(rows, number)
    }
}

// The same, by halves.
fn search(rows: &[(u64, Option<Seat>)], number: u64) -> Option<usize>
    requires rises { Rises 0 rows.now }
    ensures within { IfSome result (λ index. index < length rows.now) }
    ensures own { IfSome result (λ index. (row : ℕ × Option Seat)
        → (get_or rows.now index row).0 ≡ number) }
    ensures absent { IfNone result (seat_of (taken rows.now) number ≡ None) }
{
    rows.binary_search_by_key(&number, |row| row.0).ok()
}

// Whether the row at an index has a number.
fn stands_at(rows: &[(u64, Option<Seat>)], index: usize, number: u64) -> bool
    ensures within { result ≡ true → index < length rows.now }
    ensures own { result ≡ true → (row : ℕ × Option Seat)
        → (get_or rows.now index row).0 ≡ number }
{
    index < rows.len() && rows[index].0 == number
}

// The number of the last row.
fn last_number(rows: &[(u64, Option<Seat>)]) -> Option<u64>
    ensures last { IfSome result (λ number. (k : ℕ) (row : ℕ × Option Seat)
        → k + 1 ≡ length rows.now → (get_or rows.now k row).0 ≡ number) }
    ensures none { IfNone result (length rows.now ≡ 0) }
{
    match rows.last() {
        Some(row) => Some(row.0),
        None => None,
    }
}

// Whether a number is above that of the last row.
fn is_above(rows: &[(u64, Option<Seat>)], number: u64) -> bool
    ensures { result ≡ true → (k : ℕ) (row : ℕ × Option Seat) → k + 1 ≡ length rows.now
        → (get_or rows.now k row).0 < number }
{
    match last_number(rows) {
        Some(last) => last < number,
        None => true,
    }
}
