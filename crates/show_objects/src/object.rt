//! A line of JSON under way.
ghost use Rattle.std.specs.Prelude.{◌≡◌, [], ◌∷◌, ◌++◌, true, OnOk, IfOk, decimal};
ghost use Rattle.json.specs.Print.{print};
ghost use Rattle.json.specs.Token.{begin_array, begin_object, boolean, end_array, end_object, key, number, string};
ghost use Rattle.json.specs.Tree.{json_tokens};
ghost use Rattle.rt_language.specs.Lines.{line};
ghost use Rattle.show_objects.specs.Objects.{maybe_json};

use json::Writer;
use rt_values::{List, OutOfMemory, Text};
use std::alloc::Global;
use std::marker::Model;

/// A line of JSON under way, as the tokens that it has so far.
#[derive(Drop)]
pub(crate) struct Object {
    writer: Writer,
}

impl Model for Object {
    ghost use Rattle.std.specs.Prelude.{◌≡◌, List, []};
    ghost use Rattle.json.specs.Token.{Token, tokens_code};

    ghost Value = { List Token };

    ghost coded = { tokens_code };

    ghost view = { λ object. object.writer.tokens };

    ghost invariant = { λ object. object.writer.before ≡ [] };
}

impl Object {
    /// A line without anything.
    pub fn new(alloc: Global) -> Object
        ensures empty { result ≡ [] }
    {
        Object {
            writer: Writer::new(Vec::new(alloc)),
        }
    }

    /// Begins an object.
    pub fn begin(&mut self) -> Result<(), OutOfMemory>
        ensures begins { OnOk result (self.new ≡ self.old ++ begin_object ∷ []) }
    {
        self.writer.begin_object()?;
        Ok(())
    }

    /// Ends an object.
    pub fn close(&mut self) -> Result<(), OutOfMemory>
        ensures ends { OnOk result (self.new ≡ self.old ++ end_object ∷ []) }
    {
        self.writer.end_object()?;
        Ok(())
    }

    /// Begins a list.
    pub fn begin_list(&mut self) -> Result<(), OutOfMemory>
        ensures begins { OnOk result (self.new ≡ self.old ++ begin_array ∷ []) }
    {
        self.writer.begin_array()?;
        Ok(())
    }

    /// Ends a list.
    pub fn close_list(&mut self) -> Result<(), OutOfMemory>
        ensures ends { OnOk result (self.new ≡ self.old ++ end_array ∷ []) }
    {
        self.writer.end_array()?;
        Ok(())
    }

    /// Appends the name of a member.
    pub fn key(&mut self, name: &str) -> Result<(), OutOfMemory>
        ensures key { OnOk result (self.new ≡ self.old ++ key name.now ∷ []) }
    {
        self.writer.key(name)?;
        Ok(())
    }

    /// Appends a text.
    pub fn text(&mut self, text: &str) -> Result<(), OutOfMemory>
        ensures text { OnOk result (self.new ≡ self.old ++ string text.now ∷ []) }
    {
        self.writer.string(text)?;
        Ok(())
    }

    /// Appends a member that is a number.
    pub fn counted(&mut self, name: &str, count: u64) -> Result<(), OutOfMemory>
        ensures counted { OnOk result (self.new
            ≡ self.old ++ key name.now ∷ number (decimal count) ∷ []) }
    {
        self.key(name)?;
        self.writer.u64(count)?;
        Ok(())
    }

    /// Appends a member that is a text.
    pub fn worded(&mut self, name: &str, text: &str) -> Result<(), OutOfMemory>
        ensures worded { OnOk result (self.new
            ≡ self.old ++ key name.now ∷ string text.now ∷ []) }
    {
        self.key(name)?;
        self.text(text)
    }

    /// Appends a member that is a text, or null where there is none.
    pub fn maybe(&mut self, name: &str, text: &Option<Text>) -> Result<(), OutOfMemory>
        ensures maybe { OnOk result (self.new
            ≡ self.old ++ key name.now ∷ json_tokens (maybe_json text.now)) }
    {
        self.key(name)?;
        match text {
            Some(text) => self.text(text.as_str()),
            None => {
                self.writer.null()?;
                Ok(())
            }
        }
    }

    /// Appends a member that is true or false.
    pub fn flag(&mut self, name: &str, so: bool) -> Result<(), OutOfMemory>
        ensures flag { OnOk result (self.new ≡ self.old ++ key name.now ∷ boolean so ∷ []) }
    {
        self.key(name)?;
        self.writer.boolean(so)?;
        Ok(())
    }

    /// Ends the line.
    pub fn end(self) -> Result<List<u8>, OutOfMemory>
        ensures line { IfOk result (λ ended. ended ≡ line (print self)) }
    {
        let Object { writer } = self;
        let mut bytes = writer.into_inner();
        bytes.push(b'\n')?;
        Ok(List::from_vec(bytes))
    }
}
