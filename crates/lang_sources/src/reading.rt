//! A source from its bytes.
ghost use Rattle.std.specs.Prelude.{◌≡◌, IfOk, IfSome, option_map};
ghost use Rattle.serde_json.specs.View.{view};
ghost use Rattle.rt_language.specs.Syntax as language;
ghost use Rattle.lang_syntax.specs.Mirror.{source_of};
ghost use Rattle.lang_sources.specs.Sources.{text_of, application_of};
ghost use Rattle.lang_sources.specs.Describes.{Describes};

use crate::whole::source_in;
use lang_syntax::Source;
use rt_values::OutOfMemory;
use serde_json::Value;
use serde_json::error::Category;
use std::alloc::Global;

/// How many bytes a source has at most.
pub const SOURCE_LIMIT: usize = 16_777_216;

fn text(alloc: Global, bytes: &[u8]) -> Result<Option<Source>, OutOfMemory>
    ensures text { IfOk result (λ read. read ≡ text_of bytes.now) }
{
    match Value::from_slice(alloc, bytes) {
        Ok(value) => source_in(alloc, &value),
        Err(error) if error.classify() == Category::Memory => Err(OutOfMemory),
        Err(_) => Ok(None),
    }
}

/// The source that the bytes are, or `None` where they aren't in the form of a source.
pub fn read_source(alloc: Global, bytes: &[u8]) -> Result<Option<Source>, OutOfMemory>
    ensures source { IfOk result (λ read. read ≡ application_of bytes.now) }

    // What is answered is what the bytes describe, and all that they describe is answered.
    ensures described { IfOk result (λ read. IfSome read (λ found.
        Describes bytes.now (source_of found))) }
    ensures answered { IfOk result (λ read. (said : language.Source) → Describes bytes.now said →
        option_map source_of read ≡ Some said) }
{
    if bytes.len() > SOURCE_LIMIT {
        return Ok(None);
    }
    text(alloc, bytes)
}
