//! Where each number stands first, among rows whose numbers don't rise.
ghost use Rattle.std.specs.Prelude.{◌≡◌, ℕ, List, [], ◌∷◌, ◌++◌, ◌<◌, length, get_or, nat_eq, Some, None, true, IfSome, IfNone, if◌then◌else◌};
ghost use Rattle.std.specs.Ordering.{nat_cmp};
ghost use Rattle.std.specs.BTreeMap.{get};
ghost use Rattle.rt_model.specs.Lists.{at, first_of};
ghost use Rattle.run_table.specs.Found.{IsFirst, ListsFirsts, ListsFirstsIf};

use std::collections::BTreeMap;

/// The index of the first row of a number: as it is listed, or by a walk.
#[inline(never)]
pub(crate) fn first_row<T>(
    rows: &[(u64, T)],
    listed: bool,
    firsts: &BTreeMap<u64, usize>,
    number: u64,
) -> Option<usize>
    requires lists { ListsFirstsIf listed firsts.now rows.now }
    ensures within { IfSome result (λ index. index < length rows.now) }
    ensures first { IfSome result (λ index. IsFirst rows.now number index) }
    ensures own { IfSome result (λ index.
        (row : ℕ × T) → (get_or rows.now index row).0 ≡ number) }
    ensures absent { IfNone result (at rows.now number ≡ None) }
{
    if listed {
        return listed_index(firsts, number);
    }
    walk(rows, number)
}

// The index that is listed for a number.
fn listed_index(firsts: &BTreeMap<u64, usize>, number: u64) -> Option<usize>
    ensures { result ≡ get nat_cmp firsts.now number }
{
    match firsts.get(&number) {
        Some(index) => Some(*index),
        None => None,
    }
}

// The index of the first row of a number, each row looked at.
fn walk<T>(rows: &[(u64, T)], number: u64) -> Option<usize>
    ensures within { IfSome result (λ index. index < length rows.now) }
    ensures first { IfSome result (λ index. IsFirst rows.now number index) }
    ensures own { IfSome result (λ index.
        (row : ℕ × T) → (get_or rows.now index row).0 ≡ number) }
    ensures absent { IfNone result (at rows.now number ≡ None) }
{
    for index in 0..rows.len() {
        if rows[index].0 == number {
            return Some(index);
        }
    }
    None
}

/// Lists where numbers stand first, once a row came at the end: that row where the others are listed,
/// and all rows where the numbers rose until it came. The answer is whether all are listed then.
#[inline(always)]
pub(crate) fn relisted<T>(
    rows: &[(u64, T)],
    number: u64,
    listed: bool,
    lost: bool,
    firsts: &mut BTreeMap<u64, usize>,
) -> bool
    ensures { result ≡ true → (before : List (ℕ × T)) (value : T)
        → rows.now ≡ before ++ (number, value) ∷ [] → ListsFirstsIf listed firsts.old before
        → ListsFirsts firsts.new rows.now }
{
    if listed {
        return list_one(firsts, number, rows.len().saturating_sub(1));
    }
    if lost {
        return list_all(rows, firsts);
    }
    false
}

// Lists where each number stands first among rows. False where there is no room for that.
#[inline(never)]
fn list_all<T>(rows: &[(u64, T)], firsts: &mut BTreeMap<u64, usize>) -> bool
    ensures { result ≡ true → ListsFirsts firsts.new rows.now }
{
    firsts.clear();
    for index in 0..rows.len() {
        if !list_one(firsts, rows[index].0, index) {
            return false;
        }
    }
    true
}

// Lists an index for a number that has none yet. False where there is no room for that.
#[inline(never)]
fn list_one(firsts: &mut BTreeMap<u64, usize>, number: u64, index: usize) -> bool
    ensures { result ≡ true → (other : ℕ) → get nat_cmp firsts.new other
        ≡ first_of (get nat_cmp firsts.old other) (if nat_eq number other then Some index else None) }
{
    if firsts.contains_key(&number) {
        return true;
    }
    match firsts.insert(number, index) {
        Ok(_former) => true,
        Err(_refused) => false,
    }
}
