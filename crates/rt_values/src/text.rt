//! A text, which contracts see as its bytes.
ghost use Rattle.std.specs.Prelude.{◌≡◌, ◌↔◌, [], length, IsTrue, IfOk, string_bytes};

use crate::memory::OutOfMemory;
use crate::part::Part;
use std::alloc::Global;
use std::marker::Model;
use std::rc::Rc;

/// The string of a text: its own, or one that all copies of it have in common.
#[derive(Debug, Drop)]
pub(crate) enum Kept {
    Own(String),
    Common(Rc<String>),
}

/// A text of UTF-8.
#[derive(Debug, Drop)]
pub struct Text {
    kept: Kept,
}

impl Model for Text {
    ghost use Rattle.std.specs.Prelude.{List, ℕ};
    ghost use Rattle.rt_values.specs.Texts.{bytes_in};

    ghost Value = { List ℕ };

    ghost view = { λ text. bytes_in text.kept };
}

impl Text {
    /// The text of a string, taken over as it is.
    pub fn from_string(string: String) -> Text
        ensures text { result ≡ string_bytes string }
    {
        Text {
            kept: Kept::Own(string),
        }
    }

    /// A copy of `text`.
    pub fn from_str(alloc: Global, text: &str) -> Result<Text, OutOfMemory>
        ensures copied { IfOk result (λ copied. copied ≡ text.now) }
    {
        let string = String::from_str(alloc, text)?;
        Ok(Text::from_string(string))
    }

    /// A copy of `text` whose own copies take no room for its bytes.
    pub fn shared(alloc: Global, text: &str) -> Result<Text, OutOfMemory>
        ensures copied { IfOk result (λ copied. copied ≡ text.now) }
    {
        let string = String::from_str(alloc, text)?;
        let string = Rc::new(alloc, string)?;
        Ok(Text {
            kept: Kept::Common(string),
        })
    }

    /// The text to read.
    pub fn as_str(&self) -> &str
        ensures text { result.now ≡ self.now }
    {
        match &self.kept {
            Kept::Own(string) => string.as_str(),
            Kept::Common(string) => string.as_ref().as_str(),
        }
    }

    /// The bytes to read.
    pub fn as_bytes(&self) -> &[u8]
        ensures bytes { result.now ≡ self.now }
    {
        self.as_str().as_bytes()
    }

    /// How many bytes the text has.
    pub fn len(&self) -> usize
        ensures bytes { result ≡ length self.now }
    {
        self.as_str().len()
    }

    pub fn is_empty(&self) -> bool
        ensures empty { IsTrue result ↔ (self.now ≡ []) }
    {
        self.as_str().is_empty()
    }
}

impl Part for Text {
    fn same(&self, other: &Text) -> bool {
        self.as_str() == other.as_str()
    }

    fn copy(&self, _alloc: Global) -> Result<Text, OutOfMemory> {
        let kept = match &self.kept {
            Kept::Own(string) => Kept::Own(string.clone()?),
            Kept::Common(string) => Kept::Common(string.clone()?),
        };
        Ok(Text { kept })
    }
}
