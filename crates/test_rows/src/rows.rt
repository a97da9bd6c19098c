//! A row: a line with a sign and its name; a line with words, if there are any; a line with the
//! numbers of the read and of the put that fail, if they do; and its source. Or a line that names an
//! example, and the same application in JSON; or the line of a runtime that is kept, or of a memo.

use crate::twins::{Twins, put_twin};
use rt_show::{asks_for_page, show_and_say, show_paged_and_say};
use rt_values::{List, OutOfMemory, Text};
use show_streams::{BytesOut, BytesSource, Out, OutError};
use std::alloc::Global;

/// What stands before the end of the first line, and what stands behind it.
fn line_in(bytes: &[u8]) -> (&[u8], &[u8]) {
    for place in 0..bytes.len() {
        if bytes[place] == b'\n' {
            return (&bytes[..place], &bytes[place + 1..]);
        }
    }
    (bytes, &[])
}

/// The first row, and the others.
fn row_in(bytes: &[u8]) -> (&[u8], &[u8]) {
    for place in 1..bytes.len() {
        if bytes[place] == b'#' && bytes[place - 1] == b'\n' {
            return (&bytes[..place], &bytes[place..]);
        }
    }
    (bytes, &[])
}

/// What stands behind a key in a line that begins with it.
fn behind<'a>(line: &'a [u8], key: &str) -> Option<&'a str> {
    match str::from_utf8(line) {
        Ok(text) => text.strip_prefix(key),
        Err(_other) => None,
    }
}

fn words_in(alloc: Global, line: &str) -> Result<Vec<Text>, OutOfMemory> {
    let mut words = Vec::new(alloc);
    for word in line.split(" ") {
        words.push(Text::from_str(alloc, word)?)?;
    }
    Ok(words)
}

/// The number that a digit at a place is; 0 where none stands there.
fn digit_at(line: &str, place: usize) -> u64 {
    match line.as_bytes().get(place) {
        Some(byte) => byte.saturating_sub(b'0') as u64,
        None => 0,
    }
}

/// Runs the program over a source, and puts what it writes and how it ends.
fn run<O: Out>(
    alloc: Global,
    words: &[Text],
    (read, put): (u64, u64),
    bytes: &[u8],
    out: &mut O,
) -> Result<(), OutError> {
    let bytes = List::from_slice(alloc, bytes)?;
    let mut source = BytesSource::new(bytes, List::from_slice(alloc, &[read])?);
    let mut written = BytesOut::new(alloc, List::from_slice(alloc, &[put])?);
    let mut line = None;
    let status = if asks_for_page(words) {
        show_paged_and_say(alloc, words, &mut source, &mut written, &mut line)
    } else {
        show_and_say(alloc, words, &mut source, &mut written, &mut line)
    };
    for text in written.puts() {
        out.put(text.as_slice())?;
    }
    let end = match line {
        Some(line) => format!(in alloc; "status {status}: {line}\n")?,
        None => format!(in alloc; "status {status}\n")?,
    };
    out.put(end.as_bytes())
}

/// What stands before the end of the last line.
fn without_end(rest: &[u8]) -> &[u8] {
    match rest.split_last() {
        Some((_end, source)) => source,
        None => rest,
    }
}

/// Puts the name of a row, and what came of it.
fn put_row<T: Twins, O: Out>(alloc: Global, row: &[u8], out: &mut O) -> Result<(), OutError> {
    let (name, rest) = line_in(row);
    out.put(name)?;
    out.put(b"\n")?;
    let (line, after) = line_in(rest);
    if let Some(example) = behind(line, "twin ") {
        return put_twin::<T, O>(alloc, example, without_end(after), out);
    }
    if behind(line, "kept").is_some() {
        return out.put(T::kept(alloc)?.as_slice());
    }
    if behind(line, "memo").is_some() {
        return out.put(T::memo(alloc)?.as_slice());
    }
    put_run(alloc, rest, out)
}

/// Runs what stands behind the name of a row.
fn put_run<O: Out>(alloc: Global, rest: &[u8], out: &mut O) -> Result<(), OutError> {
    let (line, after) = line_in(rest);
    let (words, rest) = match behind(line, "words ") {
        Some(line) => (words_in(alloc, line)?, after),
        None => (Vec::new(alloc), rest),
    };
    let (line, after) = line_in(rest);
    let (fails, rest) = match behind(line, "fails ") {
        Some(line) => ((digit_at(line, 0), digit_at(line, 2)), after),
        None => ((0, 0), rest),
    };
    run(alloc, &words, fails, without_end(rest), out)
}

/// Runs each row, and puts its name and what came of it.
pub fn put_rows<T: Twins, O: Out>(
    alloc: Global,
    bytes: &[u8],
    out: &mut O,
) -> Result<(), OutError> {
    let mut rest = bytes;
    for _row in 0..bytes.len() {
        if rest.is_empty() {
            return Ok(());
        }
        let (row, others) = row_in(rest);
        put_row::<T, O>(alloc, row, out)?;
        rest = others;
    }
    Ok(())
}
