//! Lines that are written one character after another.
ghost use Rattle.std.specs.Prelude.{◌≡◌, ◌<◌, OnOk};
ghost use Rattle.rt_text.specs.Layout.{no_lines, finished, closed, with_byte, with_text};
ghost use Rattle.rt_text.specs.Layout as layout;

use rt_values::{OutOfMemory, Text};
use std::alloc::Global;
use std::marker::Model;
use std::mem;

/// The lines that are finished, and the open one.
#[derive(Drop)]
pub(crate) struct Writer {
    pub(crate) done: Vec<Text>,
    pub(crate) line: String,
}

impl Model for Writer {
    ghost use Rattle.std.specs.Prelude.{string_bytes};
    ghost use Rattle.rt_text.specs.Layout.{Lines};

    ghost Value = { Lines };

    ghost view = { λ writer. record { done = writer.done.items; line = string_bytes writer.line } };
}

impl Writer {
    /// Nothing written yet.
    pub(crate) fn new(alloc: Global) -> Writer
        ensures empty { result ≡ no_lines }
    {
        Writer {
            done: Vec::new(alloc),
            line: String::new(alloc),
        }
    }

    /// Finishes the open line.
    pub(crate) fn finish(&mut self, alloc: Global) -> Result<(), OutOfMemory>
        ensures finished { OnOk result (self.new ≡ finished self.old) }
    {
        let line = mem::replace(&mut self.line, String::new(alloc));
        self.done.push(Text::from_string(line))?;
        Ok(())
    }

    /// Finishes the open line where it isn't empty.
    pub(crate) fn close(&mut self, alloc: Global) -> Result<(), OutOfMemory>
        ensures closed { OnOk result (self.new ≡ closed self.old) }
    {
        if self.line.as_str() == "" {
            return Ok(());
        }
        self.finish(alloc)
    }

    /// Finishes the open line where it is full.
    fn make_room(&mut self, alloc: Global, width: usize) -> Result<(), OutOfMemory>
        ensures room { OnOk result (self.new ≡ layout.with_room width self.old) }
    {
        if self.line.as_bytes().len() >= width {
            return self.finish(alloc);
        }
        Ok(())
    }

    /// Writes what is shown of a character behind the open line.
    fn show(&mut self, byte: u8) -> Result<(), OutOfMemory>
        ensures shown { OnOk result (self.new ≡ layout.with_shown byte self.old) }
    {
        self.line.push(char::from(shown(byte)))?;
        Ok(())
    }

    /// Writes a character by its first byte, on a new line where the open one is full.
    fn put(&mut self, alloc: Global, width: usize, byte: u8) -> Result<(), OutOfMemory>
        ensures put { OnOk result (self.new ≡ layout.with_character width byte self.old) }
    {
        self.make_room(alloc, width)?;
        self.show(byte)
    }

    /// Writes a byte's character where it begins one.
    fn put_byte(&mut self, alloc: Global, width: usize, byte: u8) -> Result<(), OutOfMemory>
        ensures put { OnOk result (self.new ≡ with_byte width byte self.old) }
    {
        if byte >= 128 && byte < 192 {
            return Ok(());
        }
        self.put(alloc, width, byte)
    }

    /// Writes a text, byte by byte.
    pub(crate) fn write(
        &mut self,
        alloc: Global,
        width: usize,
        text: &Text,
    ) -> Result<(), OutOfMemory>
        ensures written { OnOk result (self.new ≡ with_text width text.now self.old) }
    {
        for byte in text.as_bytes() {
            self.put_byte(alloc, width, *byte)?;
        }
        Ok(())
    }

    /// Begins an element.
    pub(crate) fn begin(&mut self, alloc: Global, tag: &Text) -> Result<(), OutOfMemory>
        ensures begun { OnOk result (self.new ≡ layout.before_element tag.now self.old) }
    {
        if tag.as_str() == "br" {
            self.finish(alloc)
        } else if is_block(tag) {
            self.close(alloc)
        } else {
            Ok(())
        }
    }

    /// Ends it.
    pub(crate) fn end(&mut self, alloc: Global, tag: &Text) -> Result<(), OutOfMemory>
        ensures ended { OnOk result (self.new ≡ layout.after_element tag.now self.old) }
    {
        if is_block(tag) {
            self.close(alloc)
        } else {
            Ok(())
        }
    }
}

/// What is shown for a character that begins with this byte.
fn shown(byte: u8) -> u8
    ensures shown { result ≡ layout.shown byte }
    ensures plain { result < 128 }
{
    if byte < 32 || byte > 126 { b'?' } else { byte }
}

/// Whether an element of this tag stands on lines of its own.
fn is_block(tag: &Text) -> bool
    ensures block { result ≡ layout.is_block tag.now }
{
    let tag = tag.as_str();
    tag == "div"
        || tag == "p"
        || tag == "ul"
        || tag == "ol"
        || tag == "li"
        || tag == "pre"
        || is_heading(tag)
}

/// Whether it is a heading's.
fn is_heading(tag: &str) -> bool
    ensures heading { result ≡ layout.is_heading tag.now }
{
    tag == "h1" || tag == "h2" || tag == "h3" || tag == "h4" || tag == "h5" || tag == "h6"
}
