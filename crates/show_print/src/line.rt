//! A line under way.
ghost use Rattle.std.specs.Prelude.{◌≡◌, [], ◌∷◌, ◌++◌, true, OnOk, IfOk, decimal, codes};
ghost use Rattle.json.specs.Print.{escape, quoted};
ghost use Rattle.rt_language.specs.Lines.{numbered, qualified, line};

use itoa::Buffer;
use json::Writer;
use rt_values::{List, OutOfMemory, Text};
use std::alloc::Global;
use std::marker::Model;

/// How many bytes most lines fit into.
const SHORT: usize = 40;

/// A line under way, as its bytes.
#[derive(Drop)]
pub(crate) struct Line {
    bytes: Vec<u8>,
}

impl Model for Line {
    ghost use Rattle.std.specs.Prelude.{List, ℕ};

    ghost Value = { List ℕ };

    ghost view = { λ line. line.bytes.items };
}

impl Line {
    pub fn new(alloc: Global) -> Line
        ensures empty { result ≡ [] }
    {
        Line {
            bytes: Vec::new(alloc),
        }
    }

    /// A line without anything, and room for a short one.
    pub fn with_room(alloc: Global) -> Result<Line, OutOfMemory>
        ensures empty { IfOk result (λ line. line ≡ []) }
    {
        Ok(Line {
            bytes: Vec::with_capacity(alloc, SHORT)?,
        })
    }

    /// Appends a word as it is.
    pub fn word(&mut self, word: &str) -> Result<(), OutOfMemory>
        ensures word { OnOk result (self.new ≡ self.old ++ word.now) }
    {
        self.bytes.extend_from_slice(word.as_bytes())?;
        Ok(())
    }

    /// Appends a byte.
    pub fn byte(&mut self, byte: u8) -> Result<(), OutOfMemory>
        ensures byte { OnOk result (self.new ≡ self.old ++ byte ∷ []) }
    {
        self.bytes.push(byte)?;
        Ok(())
    }

    /// Appends a number in decimal.
    pub fn decimal(&mut self, number: u64) -> Result<(), OutOfMemory>
        ensures number { OnOk result (self.new ≡ self.old ++ decimal number) }
    {
        let mut digits = Buffer::new();
        self.word(digits.format(number))
    }

    /// Appends a text as JSON writes a string. A text without escapes is written as it is.
    pub fn quoted(&mut self, alloc: Global, text: &Text) -> Result<(), OutOfMemory>
        ensures quoted { OnOk result (self.new ≡ self.old ++ quoted text.now) }
    {
        if is_plain(text.as_bytes()) {
            self.byte(b'"')?;
            self.word(text.as_str())?;
            self.byte(b'"')
        } else {
            self.escaped(alloc, text)
        }
    }

    // Appends a text by JSON's writer, which is given room of its own: it fills the spare room of
    // what it is given.
    #[tactic(auto, using(crate::proofs::Printed::printing))]
    fn escaped(&mut self, alloc: Global, text: &Text) -> Result<(), OutOfMemory>
        ensures quoted { OnOk result (self.new ≡ self.old ++ quoted text.now) }
    {
        let mut writer = Writer::new(Vec::new(alloc));
        writer.string(text.as_str())?;
        let bytes = writer.into_inner();
        self.bytes.extend_from_slice(bytes.as_slice())?;
        Ok(())
    }

    /// Appends `#` and a number.
    pub fn numbered(&mut self, number: u64) -> Result<(), OutOfMemory>
        ensures numbered { OnOk result (self.new ≡ self.old ++ numbered number) }
    {
        self.byte(b'#')?;
        self.decimal(number)
    }

    /// Appends a name, with its namespace and `:` before it where it has one.
    pub fn name(&mut self, namespace: &Option<Text>, name: &Text) -> Result<(), OutOfMemory>
        ensures name { OnOk result (self.new ≡ self.old ++ qualified namespace.now name.now) }
    {
        if let Some(namespace) = namespace {
            self.word(namespace.as_str())?;
            self.byte(b':')?;
        }
        self.word(name.as_str())
    }

    /// Ends the line.
    pub fn end(self) -> Result<List<u8>, OutOfMemory>
        ensures line { IfOk result (λ ended. ended ≡ line self) }
    {
        let Line { mut bytes } = self;
        bytes.push(b'\n')?;
        Ok(List::from_vec(bytes))
    }
}

/// Whether JSON writes each of these bytes as it is.
fn is_plain(bytes: &[u8]) -> bool
    ensures plain { result ≡ true → escape bytes.now ≡ bytes.now }
{
    for byte in bytes {
        if *byte < 32 || *byte == 34 || *byte == 92 {
            return false;
        }
    }
    true
}
