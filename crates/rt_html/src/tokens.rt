//! What stands between two `<` of a text, read as a part of nodes.
//!
//! Nothing here is refused that is only spelt otherwise: the reader writes what it read again, and
//! compares.
ghost use Rattle.std.specs.Prelude.{◌≡◌, ◌++◌, ◌<◌, [], true, None, IfOk, OnOk, codes, map, option_map, string_bytes};
ghost use Rattle.std.specs.List.{fold};
ghost use Rattle.tree_edits.specs.Documents.{doc_attribute_of};
ghost use Rattle.rt_html.specs.Parts as reading;
ghost use Rattle.rt_html.specs.Parts.{or_else, parts_read, taking_of, unnamed};

use rt_edits::DocAttr;
use rt_values::{List, OutOfMemory, Text};
use std::alloc::{AllocError, Global};

/// How an element begins.
#[derive(Drop)]
pub(crate) struct Begin {
    pub(crate) tag: Text,
    pub(crate) namespace: Option<Text>,
    pub(crate) attrs: List<DocAttr>,
}

/// What stands before the first such character, or all where there is none; and what stands behind
/// it, where there is one.
pub(crate) fn cut<'a>(end: char, text: &'a str) -> (&'a str, Option<&'a str>)
    requires { end < 128 }
    ensures before { result.0.now ≡ reading.up_to end text.now }
    ensures after { option_map (λ rest. rest.now) result.1 ≡ reading.past end text.now }
{
    match text.split_once(end) {
        Some((before, after)) => (before, Some(after)),
        None => (text, None),
    }
}

/// What stands behind these characters, where the text begins with them.
pub(crate) fn behind<'a>(first: &str, text: &'a str) -> Option<&'a str>
    ensures { option_map (λ rest. rest.now) result ≡ reading.behind first.now text.now }
{
    text.strip_prefix(first)
}

/// The parts between such characters.
pub(crate) fn parts_at<'a>(
    alloc: Global,
    end: char,
    text: &'a str,
) -> Result<Vec<&'a str>, AllocError>
    requires { end < 128 }
    ensures { IfOk result (λ found. map (λ part. part.now) found.items
        ≡ reading.parts_at end text.now) }
{
    text.split(end).collect(alloc)
}

/// Appends a character and what stands behind its name.
fn put(read: &mut String, character: &str, rest: &str) -> Result<(), OutOfMemory>
    ensures { OnOk result (string_bytes read.new
        ≡ string_bytes read.old ++ (character.now ++ rest.now)) }
{
    read.push_str(character)?;
    read.push_str(rest)?;
    Ok(())
}

/// Appends what follows a `&`: the character of its name, and what stands behind it.
fn put_named(read: &mut String, part: &str) -> Result<(), OutOfMemory>
    ensures { OnOk result (string_bytes read.new ≡ string_bytes read.old ++ unnamed part.now) }
{
    if let Some(rest) = behind("amp;", part) {
        put(read, "&", rest)
    } else if let Some(rest) = behind("lt;", part) {
        put(read, "<", rest)
    } else if let Some(rest) = behind("gt;", part) {
        put(read, ">", rest)
    } else if let Some(rest) = behind("quot;", part) {
        put(read, "\"", rest)
    } else if let Some(rest) = behind("#10;", part) {
        put(read, "\n", rest)
    } else {
        Ok(())
    }
}

/// Appends the first part of a text, or what follows a `&`.
fn put_part(read: &mut String, is_first: bool, part: &str) -> Result<(), OutOfMemory>
    ensures { OnOk result (string_bytes read.new
        ≡ string_bytes read.old ++ reading.part_read is_first part.now) }
{
    if is_first {
        read.push_str(part)?;
        Ok(())
    } else {
        put_named(read, part)
    }
}

/// Appends a text by the parts between its `&`.
fn put_parts(read: &mut String, parts: &[&str]) -> Result<(), OutOfMemory>
    ensures { OnOk result (string_bytes read.new
        ≡ string_bytes read.old ++ parts_read true (map (λ part. part.now) parts.now)) }
{
    let mut is_first = true;
    for part in parts {
        put_part(read, is_first, part)?;
        is_first = false;
    }
    Ok(())
}

/// The text that is spelt so.
pub(crate) fn unescaped(alloc: Global, spelt: &str) -> Result<Text, OutOfMemory>
    ensures { IfOk result (λ text. text ≡ reading.unescaped spelt.now) }
{
    let parts = parts_at(alloc, '&', spelt)?;
    let mut read = String::new(alloc);
    put_parts(&mut read, parts.as_slice())?;
    Ok(Text::from_string(read))
}

/// A namespace, where a colon stands behind it, and a name.
fn name_in(alloc: Global, spelt: &str) -> Result<(Option<Text>, Text), OutOfMemory>
    ensures { IfOk result (λ name. name ≡ reading.name_in spelt.now) }
{
    let (namespace, name) = cut(':', spelt);
    match name {
        Some(name) => {
            let namespace = Text::from_str(alloc, namespace)?;
            let name = Text::from_str(alloc, name)?;
            Ok((Some(namespace), name))
        }
        None => {
            let name = Text::from_str(alloc, spelt)?;
            Ok((None, name))
        }
    }
}

/// A text without a space before it.
fn bare<'a>(text: &'a str) -> &'a str
    ensures { result.now ≡ or_else (reading.behind (codes " ") text.now) text.now }
{
    match behind(" ", text) {
        Some(rest) => rest,
        None => text,
    }
}

/// The name of an attribute, by what stands before its first quote.
fn name_before(alloc: Global, before: &str) -> Result<(Option<Text>, Text), OutOfMemory>
    ensures { IfOk result (λ name. name ≡ reading.name_before before.now) }
{
    let (name, _behind) = cut('=', bare(before));
    name_in(alloc, name)
}

/// An attribute, by its name and what stands between its quotes.
fn attribute_by(
    alloc: Global,
    name: (Option<Text>, Text),
    value: &str,
) -> Result<DocAttr, OutOfMemory>
    ensures { IfOk result (λ attr. doc_attribute_of attr ≡ reading.attribute_by name value.now) }
{
    let (namespace, name) = name;
    let value = unescaped(alloc, value)?;
    Ok(DocAttr {
        name,
        namespace,
        value,
    })
}

/// One more part between quotes: what stands before a value, or this value.
fn take_part(
    alloc: Global,
    done: &mut List<DocAttr>,
    held: Option<(Option<Text>, Text)>,
    part: &str,
) -> Result<Option<(Option<Text>, Text)>, OutOfMemory>
    ensures { IfOk result (λ next. taking_of done.new next
        ≡ reading.take_part (taking_of done.old held) part.now) }
{
    match held {
        Some(name) => {
            let attr = attribute_by(alloc, name, part)?;
            done.push(attr)?;
            Ok(None)
        }
        None => {
            let name = name_before(alloc, part)?;
            Ok(Some(name))
        }
    }
}

/// Takes all parts between quotes, from the first name on.
fn take_parts(alloc: Global, done: &mut List<DocAttr>, parts: &[&str]) -> Result<(), OutOfMemory>
    ensures { OnOk result (map doc_attribute_of done.new
        ≡ (fold reading.take_part (taking_of done.old None)
        (map (λ part. part.now) parts.now)).done) }
{
    let mut held: Option<(Option<Text>, Text)> = None;
    for part in parts {
        held = take_part(alloc, done, held, part)?;
    }
    Ok(())
}

/// The attributes of an element.
fn attributes_in(alloc: Global, spelt: &str) -> Result<List<DocAttr>, OutOfMemory>
    ensures { IfOk result (λ attrs. map doc_attribute_of attrs
        ≡ reading.attributes_in spelt.now) }
{
    let parts = parts_at(alloc, '"', spelt)?;
    let mut done = List::new(alloc);
    take_parts(alloc, &mut done, parts.as_slice())?;
    Ok(done)
}

/// How an element begins: its name, and its attributes behind the first space.
pub(crate) fn begin_in(alloc: Global, spelt: &str) -> Result<Begin, OutOfMemory>
    ensures name { IfOk result (λ begin. (begin.namespace, begin.tag)
        ≡ reading.name_in (reading.up_to 32 spelt.now)) }
    ensures attributes { IfOk result (λ begin. map doc_attribute_of begin.attrs
        ≡ reading.attributes_in (or_else (reading.past 32 spelt.now) [])) }
{
    let (name, attributes) = cut(' ', spelt);
    let (namespace, tag) = name_in(alloc, name)?;
    let attrs = attributes_in(alloc, attributes.unwrap_or(""))?;
    Ok(Begin {
        tag,
        namespace,
        attrs,
    })
}
