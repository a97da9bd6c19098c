//! Entries that were noted, beside those of a list.
ghost use Rattle.std.specs.Prelude.{◌≡◌, ℕ, suc, ◌+◌, ◌<◌, ◌≤◌, ◌∷◌, false, length, map, take, drop, IfOk, MatchOption};
ghost use Rattle.rt_model.specs.Replay.{same_entry};
ghost use Rattle.run_reports.specs.Seen.{entry_of};
ghost use Rattle.rt_audit.specs.Fronts.{IsFront, PartsAt, begins_with};

use rt_values::{List, OutOfMemory, Part};
use run_reports::Entry;

/// Whether two entries are the same.
fn same(a: Entry, b: Entry) -> bool
    ensures same { result ≡ same_entry (entry_of a) (entry_of b) }
{
    a.same(&b)
}

/// Whether a list has an entry at a place.
fn has_at(list: &[Entry], at: usize, entry: Entry) -> bool
    ensures has { result ≡ begins_with (entry_of entry) (drop at (map entry_of list.now)) }
{
    if at < list.len() {
        same(entry, list[at])
    } else {
        false
    }
}

/// The first place, from one on, where the entries that were noted are no longer those of a list.
pub(crate) fn parted(noted: &[Entry], list: &[Entry], from: usize) -> Option<usize>
    ensures parted { IsFront (take from (map entry_of noted.now)) (map entry_of list.now) →
        MatchOption result
        (IsFront (map entry_of noted.now) (map entry_of list.now))
        (λ at. PartsAt (map entry_of noted.now) (map entry_of list.now) at) }
{
    for at in from..noted.len() {
        if !has_at(list, at, noted[at]) {
            return Some(at);
        }
    }
    None
}

/// The entries after the one that opens a list; None where another one does, or none.
pub(crate) fn opened(list: &[Entry], opening: Entry) -> Option<&[Entry]>
    ensures opened { MatchOption result
        (begins_with (entry_of opening) (map entry_of list.now) ≡ false)
        (λ rest. map entry_of list.now ≡ entry_of opening ∷ map entry_of rest.now) }
{
    let Some((first, rest)) = list.split_first() else {
        return None;
    };
    if same(opening, *first) {
        Some(rest)
    } else {
        None
    }
}

/// The number of the entry behind so many that come after the opening one. One that no `u64` counts
/// is answered as want of memory.
pub(crate) fn number_behind(good: usize) -> Result<u64, OutOfMemory>
    ensures number { IfOk result (λ number. number ≡ good + 1) }
{
    match (good as u64).checked_add(1) {
        Some(number) => Ok(number),
        None => Err(OutOfMemory),
    }
}

/// The list of this number, where there is one.
pub(crate) fn list_at(log: &[List<Entry>], at: usize) -> Option<&[Entry]>
    ensures list { MatchOption result
        (length log.now ≤ at)
        (λ list. (at < length log.now) × (drop at (map (map entry_of) log.now)
        ≡ map entry_of list.now ∷ drop (suc at) (map (map entry_of) log.now))) }
{
    if at < log.len() {
        Some(log[at].as_slice())
    } else {
        None
    }
}
