//! What is wrong with the bytes of a source.

use crate::forms::{Table, Want};
use crate::saying::line_of;
use crate::walk::{Look, Walk};
use rt_values::OutOfMemory;
use serde_json::Value;
use serde_json::error::Category;
use show_streams::MOST_BYTES;
use std::alloc::Global;

/// One level more than JSON nests.
const LEVELS: u8 = 128;

/// How deep JSON nests at most.
const NESTS: usize = 127;

/// One line with the place where bytes break the form of a source, what was wanted there and what
/// was found; or `None` where they are one.
pub fn refusal(alloc: Global, bytes: &[u8]) -> Result<Option<String>, OutOfMemory> {
    match Value::from_slice(alloc, bytes) {
        Ok(value) => of_value(alloc, &value),
        Err(error) if error.classify() == Category::Memory => Err(OutOfMemory),
        Err(error) => match of_bytes(alloc, bytes)? {
            Some(line) => Ok(Some(line)),
            None => Ok(Some(format!(in alloc; "{error}")?)),
        },
    }
}

/// What is said of a source that is too long.
pub fn too_long(alloc: Global) -> Result<String, OutOfMemory> {
    Ok(format!(in alloc; "the source: wanted at most {MOST_BYTES} bytes, found more")?)
}

fn of_value(alloc: Global, value: &Value) -> Result<Option<String>, OutOfMemory> {
    let mut walk = Walk::new(alloc, value);
    let mut look = walk.look(LEVELS, Want::One(Table::Outline), value);
    if look == Look::Fits {
        look = walk.look(LEVELS, Want::One(Table::Source), value);
    }
    match look {
        Look::Fits => Ok(None),
        Look::Wrong => Ok(Some(line_of(alloc, &walk)?)),
        Look::OutOfMemory => Err(OutOfMemory),
    }
}

/// What is wrong with bytes that aren't JSON, where more can be said than at which place.
fn of_bytes(alloc: Global, bytes: &[u8]) -> Result<Option<String>, OutOfMemory> {
    if bytes.trim_ascii().is_empty() {
        return Ok(Some(String::from_str(alloc, "the source: wanted an object, found nothing")?));
    }
    if has_order_mark(bytes) {
        return Ok(Some(String::from_str(
            alloc,
            "the source: wanted JSON from its first byte, found a byte order mark",
        )?));
    }
    if let Err(error) = str::from_utf8(bytes) {
        let place = error.valid_up_to();
        let line = format!(in alloc;
            "the source: wanted UTF-8, found another byte at place {place}, counted from 0"
        )?;
        return Ok(Some(line));
    }
    match too_deep(bytes) {
        Some(place) => Ok(Some(format!(in alloc;
            "the source: wanted at most {NESTS} levels, found one more at byte {place}, counted from 0"
        )?)),
        None => Ok(None),
    }
}

/// Whether bytes begin with the mark that some editors put before a text.
fn has_order_mark(bytes: &[u8]) -> bool {
    bytes.len() >= 3 && bytes[0] == 0xEF && bytes[1] == 0xBB && bytes[2] == 0xBF
}

/// Where a list or an object begins that is nested too deep; strings are passed over.
fn too_deep(bytes: &[u8]) -> Option<usize> {
    let mut depth = 0usize;
    let mut is_text = false;
    let mut is_escaped = false;
    for place in 0..bytes.len() {
        let byte = bytes[place];
        if is_text {
            is_text = is_escaped || byte != b'"';
            is_escaped = !is_escaped && byte == b'\\';
        } else if byte == b'"' {
            is_text = true;
        } else if byte == b'[' || byte == b'{' {
            if depth == NESTS {
                return Some(place);
            }
            depth = depth.saturating_add(1);
        } else if byte == b']' || byte == b'}' {
            depth = depth.saturating_sub(1);
        }
    }
    None
}
