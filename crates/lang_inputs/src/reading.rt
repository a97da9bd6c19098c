//! An input from its bytes. What a value is, as an input, has one reader, that of a source's inputs.
ghost use Rattle.std.specs.Prelude.{◌≡◌, IfOk, IfSome, Some, option_map};
ghost use Rattle.lang_inputs.specs.Inputs.{one_input_of, text_of};
ghost use Rattle.lang_inputs.specs.Describes.{DescribesInput};
ghost use Rattle.lang_syntax.specs.Mirror.{input_of};
ghost use Rattle.rt_language.specs.Syntax as language;

use lang_sources::{SOURCE_LIMIT, input};
use lang_syntax::InputSource;
use rt_values::OutOfMemory;
use serde_json::Value;
use serde_json::error::Category;
use std::alloc::Global;

/// The input of a text that is JSON.
fn text(alloc: Global, bytes: &[u8]) -> Result<Option<InputSource>, OutOfMemory>
    ensures text { IfOk result (λ read. read ≡ text_of bytes.now) }
{
    match Value::from_slice(alloc, bytes) {
        Ok(value) => input(alloc, &value),
        Err(error) if error.classify() == Category::Memory => Err(OutOfMemory),
        Err(_) => Ok(None),
    }
}

/// The input that the bytes are, or `None` where they aren't in the form of one.
pub fn read_input(alloc: Global, bytes: &[u8]) -> Result<Option<InputSource>, OutOfMemory>
    ensures input { IfOk result (λ read. read ≡ one_input_of bytes.now) }

    // What is answered is what the bytes describe, and all that they describe is answered.
    ensures described { IfOk result (λ read. IfSome read (λ found.
        DescribesInput bytes.now (input_of found))) }
    ensures answered { IfOk result (λ read. (said : language.InputSource) →
        DescribesInput bytes.now said → option_map input_of read ≡ Some said) }
{
    if bytes.len() > SOURCE_LIMIT {
        return Ok(None);
    }
    text(alloc, bytes)
}
