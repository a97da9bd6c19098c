//! Words of a line, as what they name.

use lang_views::{Content, Value};
use rt_inbox::{Drained, Msg, Post};
use rt_values::{List, OutOfMemory, ScopeId, Task, Text};
use std::alloc::{AllocError, Global};

/// The word at this place, or an empty one.
pub(crate) fn word<'a>(words: &[&'a str], at: usize) -> &'a str {
    match words.get(at) {
        Some(word) => *word,
        None => "",
    }
}

/// The number at this place, or 0.
pub(crate) fn number(words: &[&str], at: usize) -> u64 {
    number_of(word(words, at))
}

/// The number at this place, of 32 bits, or 0.
pub(crate) fn small(words: &[&str], at: usize) -> u32 {
    match word(words, at).parse::<u32>() {
        Ok(number) => number,
        Err(_other) => 0,
    }
}

/// The number that a word is, or 0.
fn number_of(word: &str) -> u64 {
    match word.parse::<u64>() {
        Ok(number) => number,
        Err(_other) => 0,
    }
}

/// A value: `i1` a number, `sx` a text, `c1` a cell, `t1` a task, any other word none.
pub(crate) fn value_of(alloc: Global, word: &str) -> Result<Value, OutOfMemory> {
    if let Some(rest) = word.strip_prefix("i") {
        return Ok(match rest.parse::<i64>() {
            Ok(number) => Value::new(Content::Number(number)),
            Err(_other) => Value::none(),
        });
    }
    if let Some(rest) = word.strip_prefix("s") {
        return Ok(Value::new(Content::Text(Text::from_str(alloc, rest)?)));
    }
    if let Some(rest) = word.strip_prefix("c") {
        return Ok(Value::cell(number_of(rest)));
    }
    if let Some(rest) = word.strip_prefix("t") {
        return Ok(Value::task(number_of(rest)));
    }
    Ok(Value::none())
}

/// The values from this place on.
pub(crate) fn values_from(
    alloc: Global,
    words: &[&str],
    from: usize,
) -> Result<List<Value>, OutOfMemory> {
    let mut values = List::new(alloc);
    for at in from..words.len() {
        values.push(value_of(alloc, word(words, at))?)?;
    }
    Ok(values)
}

fn post_of(word: &str) -> Post {
    if let Some(rest) = word.strip_prefix("m") {
        return Post::Mark(ScopeId(number_of(rest)));
    }
    if let Some(rest) = word.strip_prefix("w") {
        return Post::Wake(Task(number_of(rest)));
    }
    Post::AllDirty
}

/// Messages that were drained: whether the queue was emptied, and what each asks for.
pub(crate) fn drained_of(alloc: Global, words: &[&str]) -> Result<Drained, OutOfMemory> {
    let mut messages = List::new(alloc);
    for at in 2..words.len() {
        let what = post_of(word(words, at));
        messages.push(Msg {
            poster: 0,
            seq: at as u64,
            what,
        })?;
    }
    Ok(Drained {
        messages,
        emptied: number(words, 1) == 1,
    })
}

/// The words of a line.
pub(crate) fn words_of<'a>(alloc: Global, line: &'a str) -> Result<Vec<&'a str>, AllocError> {
    let mut words = Vec::new(alloc);
    for word in line.split(" ") {
        words.push(word)?;
    }
    Ok(words)
}
