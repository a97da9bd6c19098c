//! The words of entries.
ghost use Rattle.std.specs.Prelude.{◌≡◌, bytes_eq, codes, decimal, IfOk};
ghost use Rattle.serde_json.specs.View.{view, items_view};
ghost use Rattle.show_logs.specs.Reading.{ReadsNumber, ReadsNumbered, ReadsWord, ReadsServed, ReadsEntry, ReadsEntries, ReadsList, ReadsLists};

use rt_values::{List, OutOfMemory, ScopeId, Task};
use run_reports::Entry;
use serde_json::Value;
use std::alloc::Global;

/// Whether a number is printed like this.
fn is_printed(alloc: Global, number: u64, digits: &str) -> Result<bool, OutOfMemory>
    ensures printed { IfOk result (λ same. same ≡ bytes_eq (decimal number) digits.now) }
{
    let mut printed = String::new(alloc);
    printed.write(number)?;
    Ok(printed.as_str() == digits)
}

/// The number that is printed like this: without a sign, and without zeros before it.
fn number_of(alloc: Global, digits: &str) -> Result<Option<u64>, OutOfMemory>
    ensures number { IfOk result (ReadsNumber digits.now) }
{
    let Ok(number) = digits.parse::<u64>() else {
        return Ok(None);
    };
    let same = is_printed(alloc, number, digits)?;
    if same { Ok(Some(number)) } else { Ok(None) }
}

/// The number behind a name.
fn numbered(alloc: Global, word: &str, name: &str) -> Result<Option<u64>, OutOfMemory>
    ensures number { IfOk result (ReadsNumbered word.now name.now) }
{
    match word.strip_prefix(name) {
        Some(digits) => number_of(alloc, digits),
        None => Ok(None),
    }
}

/// Whether a word is that of the build.
fn is_build(word: &str) -> bool
    ensures build { result ≡ bytes_eq word.now (codes "build") }
{
    word == "build"
}

/// The entry that a word is.
fn entry_in(alloc: Global, word: &str) -> Result<Option<Entry>, OutOfMemory>
    ensures entry { IfOk result (ReadsWord word.now) }
{
    if is_build(word) {
        return Ok(Some(Entry::Build));
    }
    if let Some(input) = numbered(alloc, word, "input:")? {
        return Ok(Some(Entry::Input(input)));
    }
    if let Some(scope) = numbered(alloc, word, "heard:")? {
        return Ok(Some(Entry::Heard(ScopeId(scope))));
    }
    if let Some(scope) = numbered(alloc, word, "rerun:")? {
        return Ok(Some(Entry::Rerun(ScopeId(scope))));
    }
    if let Some(task) = numbered(alloc, word, "poll:")? {
        return Ok(Some(Entry::Poll(Task(task))));
    }
    if let Some(scope) = numbered(alloc, word, "effects:")? {
        return Ok(Some(Entry::Effects(ScopeId(scope))));
    }
    served_in(alloc, word)
}

/// The entry of a scope that is made, handed a component or removed that a word is.
fn served_in(alloc: Global, word: &str) -> Result<Option<Entry>, OutOfMemory>
    ensures entry { IfOk result (ReadsServed word.now) }
{
    if let Some(scope) = numbered(alloc, word, "made:")? {
        return Ok(Some(Entry::Made(ScopeId(scope))));
    }
    if let Some(scope) = numbered(alloc, word, "fed:")? {
        return Ok(Some(Entry::Fed(ScopeId(scope))));
    }
    if let Some(scope) = numbered(alloc, word, "kept:")? {
        return Ok(Some(Entry::Kept(ScopeId(scope))));
    }
    if let Some(scope) = numbered(alloc, word, "removed:")? {
        return Ok(Some(Entry::Removed(ScopeId(scope))));
    }
    Ok(None)
}

fn entry(alloc: Global, value: &Value) -> Result<Option<Entry>, OutOfMemory>
    ensures entry { IfOk result (ReadsEntry (view value.now)) }
{
    match value.as_str() {
        Some(word) => entry_in(alloc, word),
        None => Ok(None),
    }
}

/// The entries of a list of words.
fn entries(alloc: Global, values: &[Value]) -> Result<Option<List<Entry>>, OutOfMemory>
    ensures entries { IfOk result (ReadsEntries (items_view values.now)) }
{
    let mut read = Vec::new(alloc);
    for value in values {
        let Some(one) = entry(alloc, value)? else {
            return Ok(None);
        };
        read.push(one)?;
    }
    Ok(Some(List::from_vec(read)))
}

fn list(alloc: Global, value: &Value) -> Result<Option<List<Entry>>, OutOfMemory>
    ensures list { IfOk result (ReadsList (view value.now)) }
{
    match value.as_array() {
        Some(values) => entries(alloc, values),
        None => Ok(None),
    }
}

/// The lists of a log, where each of its values is a list of words.
pub(crate) fn lists(
    alloc: Global,
    values: &[Value],
) -> Result<Option<List<List<Entry>>>, OutOfMemory>
    ensures lists { IfOk result (ReadsLists (items_view values.now)) }
{
    let mut read = Vec::new(alloc);
    for value in values {
        let Some(one) = list(alloc, value)? else {
            return Ok(None);
        };
        read.push(one)?;
    }
    Ok(Some(List::from_vec(read)))
}
