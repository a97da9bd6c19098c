//! A text under way.
ghost use Rattle.std.specs.Prelude.{◌≡◌, [], ◌++◌, OnOk, decimal};
ghost use Rattle.std.specs.Char.{encode_utf8};
ghost use Rattle.rt_language.specs.Lines.{qualified};
ghost use Rattle.rt_html.specs.Spelling.{escaped, named_or};

use itoa::Buffer;
use rt_values::{OutOfMemory, Text};
use std::alloc::Global;
use std::marker::Model;

/// A text under way, which contracts see as its bytes.
#[derive(Drop)]
pub(crate) struct Writer {
    text: String,
}

impl Model for Writer {
    ghost use Rattle.std.specs.Prelude.{List, ℕ, string_bytes};

    ghost Value = { List ℕ };

    ghost view = { λ writer. string_bytes writer.text };
}

impl Writer {
    /// Nothing written yet.
    pub(crate) fn new(alloc: Global) -> Writer
        ensures empty { result ≡ [] }
    {
        Writer {
            text: String::new(alloc),
        }
    }

    /// What was written.
    pub(crate) fn into_text(self) -> Text
        ensures text { result ≡ self }
    {
        Text::from_string(self.text)
    }

    /// Appends a word as it is.
    pub(crate) fn word(&mut self, word: &str) -> Result<(), OutOfMemory>
        ensures word { OnOk result (self.new ≡ self.old ++ word.now) }
    {
        self.text.push_str(word)?;
        Ok(())
    }

    /// Appends a name, with its namespace and `:` before it where it has one.
    pub(crate) fn name(&mut self, namespace: &Option<Text>, name: &Text) -> Result<(), OutOfMemory>
        ensures name { OnOk result (self.new ≡ self.old ++ qualified namespace.now name.now) }
    {
        if let Some(namespace) = namespace {
            self.word(namespace.as_str())?;
            self.word(":")?;
        }
        self.word(name.as_str())
    }

    /// Appends a number in decimal.
    pub(crate) fn decimal(&mut self, number: u64) -> Result<(), OutOfMemory>
        ensures number { OnOk result (self.new ≡ self.old ++ decimal number) }
    {
        let mut digits = Buffer::new();
        self.word(digits.format(number))
    }

    /// Appends a text as it is spelt.
    pub(crate) fn escaped(&mut self, text: &str) -> Result<(), OutOfMemory>
        ensures { OnOk result (self.new ≡ self.old ++ escaped text.now) }
    {
        for character in text.chars() {
            self.put(character)?;
        }
        Ok(())
    }

    /// Appends a character as it is spelt.
    fn put(&mut self, character: char) -> Result<(), OutOfMemory>
        ensures { OnOk result (self.new
            ≡ self.old ++ named_or character (encode_utf8 character)) }
    {
        match character {
            '&' => self.word("&amp;"),
            '<' => self.word("&lt;"),
            '>' => self.word("&gt;"),
            '"' => self.word("&quot;"),
            '\n' => self.word("&#10;"),
            _ => {
                self.text.push(character)?;
                Ok(())
            }
        }
    }
}
