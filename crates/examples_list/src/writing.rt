//! What the listeners write.
ghost use Rattle.std.specs.Prelude.{◌≡◌, IfOk};
ghost use Rattle.std.specs.List.{slice_get};
ghost use Rattle.std.specs.Option.{option_copied};
ghost use Rattle.examples_list.specs.Meaning as meaning;

use crate::parts::{Value, items_in};
use examples_library::Made;
use rt_author::{List, Part, Text, one, two};
use std::alloc::Global;

/// The cells that a listener writes, with their new values.
pub(crate) type Writes = Made<List<(u64, Value)>>;

/// What was typed, of a value that was read.
fn words_in(alloc: Global, value: Option<&Option<Value>>) -> Made<Option<Text>>
    ensures words { IfOk result (λ words. words ≡ meaning.words_in (option_copied value.entry)) }
{
    match value {
        Some(Some(Value::Words(words))) => Ok(Some(words.copy(alloc)?)),
        _ => Ok(None),
    }
}

/// The writes that make an item of these words: the field is emptied, and the items are one more.
fn with_words(alloc: Global, draft: u64, cell: u64, words: Text, mut items: List<Text>) -> Writes
    ensures writes { IfOk result (λ writes.
        writes ≡ meaning.with_words draft cell words items) }
{
    if words.is_empty() {
        return Ok(List::new(alloc));
    }
    items.push(words)?;
    let empty = Value::Words(Text::from_str(alloc, "")?);
    two(alloc, (draft, empty), (cell, Value::Items(items)))
}

/// The writes of the button, of the values of the two cells.
pub(crate) fn added(alloc: Global, draft: u64, cell: u64, values: &[Option<Value>]) -> Writes
    ensures writes { IfOk result (λ writes. writes ≡ meaning.added draft cell
        (meaning.words_in (slice_get values.now 0)) (meaning.items_in (slice_get values.now 1))) }
{
    let words = words_in(alloc, values.get(0))?;
    match (words, items_in(alloc, values.get(1))?) {
        (Some(words), Some(items)) => with_words(alloc, draft, cell, words, items),
        _ => Ok(List::new(alloc)),
    }
}

/// The writes of the button of an item.
pub(crate) fn removed(alloc: Global, cell: u64, at: u64, items: Option<List<Text>>) -> Writes
    ensures writes { IfOk result (λ writes. writes ≡ meaning.removed cell at items) }
{
    let Some(mut items) = items else {
        return Ok(List::new(alloc));
    };
    if at as usize >= items.len() {
        return Ok(List::new(alloc));
    }
    let _gone = items.remove(at as usize);
    one(alloc, (cell, Value::Items(items)))
}
