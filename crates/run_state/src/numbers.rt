//! Lists of numbers.
ghost use Rattle.std.specs.Prelude.{◌≡◌, ◌<◌, ◌≤◌, ◌++◌, ℕ, length, get_or, take, drop, nat_eq, nat_le, OnOk, OnErr, IfSome, IfNone, true, false};
ghost use Rattle.rt_model.specs.Lists.{has, drop_number, join, insert_number};
ghost use Rattle.std.specs.List.{list_any};
ghost use Rattle.run_state.specs.Kinds.{stands_at};
ghost use Rattle.run_state.specs.Names.{scope_numbers};

use rt_values::{List, OutOfMemory, ScopeId};

/// Where a number stands first.
fn number_in(numbers: &[u64], number: u64) -> Option<usize>
    ensures within { IfSome result (λ index. index < length numbers.now) }
    ensures own { IfSome result (λ index. (d : ℕ) → get_or numbers.now index d ≡ number) }
    ensures none { IfNone result (has numbers.now number ≡ false) }
{
    for index in 0..numbers.len() {
        if numbers[index] == number {
            return Some(index);
        }
    }
    None
}

/// Takes a number out wherever it stands.
pub fn drop_number(numbers: &mut List<u64>, number: u64)
    ensures { numbers.new ≡ drop_number numbers.old number }
{
    while let Some(index) = number_in(numbers.as_slice(), number) {
        numbers.remove(index);
    }
}

/// Where a scope stands first.
fn scope_in(scopes: &[ScopeId], scope: u64) -> Option<usize>
    ensures within { IfSome result (λ index. index < length scopes.now) }
    ensures own { IfSome result (λ index. (d : _) →
        nat_eq (get_or scopes.now index d).0 scope ≡ true) }
    ensures none { IfNone result (list_any (λ own. nat_eq own.0 scope) scopes.now ≡ false) }
{
    for index in 0..scopes.len() {
        if scopes[index].0 == scope {
            return Some(index);
        }
    }
    None
}

/// Takes a scope out wherever it stands.
pub(crate) fn drop_skipped(scopes: &mut List<ScopeId>, scope: u64)
    ensures { scope_numbers scopes.new ≡ drop_number (scope_numbers scopes.old) scope }
{
    while let Some(index) = scope_in(scopes.as_slice(), scope) {
        scopes.remove(index);
    }
}

/// Puts a scope at the end where it isn't in the list.
pub fn join(scopes: &mut List<ScopeId>, scope: u64) -> Result<(), OutOfMemory>
    ensures joined { OnOk result (scope_numbers scopes.new
        ≡ join (scope_numbers scopes.old) scope) }
    ensures err { OnErr result (scopes.new ≡ scopes.old) }
{
    match scope_in(scopes.as_slice(), scope) {
        Some(_index) => Ok(()),
        None => scopes.push(ScopeId(scope)),
    }
}

/// Puts a number in its place in an ascending list, once.
pub fn insert_number(numbers: &mut Vec<u32>, number: u32) -> Result<(), OutOfMemory>
    ensures { OnOk result (numbers.new.items ≡ insert_number numbers.old.items number) }
{
    let index = place_of(numbers.as_slice(), number);
    if stands_at(numbers.as_slice(), index, number) {
        return Ok(());
    }
    numbers.insert(index, number)?;
    Ok(())
}

/// Whether a number stands at an index.
fn stands_at(numbers: &[u32], index: usize, number: u32) -> bool
    ensures { result ≡ stands_at numbers.now index number }
{
    match numbers.get(index) {
        Some(own) => *own == number,
        None => false,
    }
}

/// Where a number belongs in an ascending list: before the first that isn't lower.
fn place_of(numbers: &[u32], number: u32) -> usize
    ensures within { result ≤ length numbers.now }
    ensures lower { insert_number numbers.now number
        ≡ take result numbers.now ++ insert_number (drop result numbers.now) number }
    ensures here { (d : ℕ) → result < length numbers.now →
        nat_le number (get_or numbers.now result d) ≡ true }
{
    for index in 0..numbers.len() {
        if number <= numbers[index] {
            return index;
        }
    }
    numbers.len()
}
