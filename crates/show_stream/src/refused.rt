//! What is said of a line that is no input.

use rt_values::OutOfMemory;
use serde_json::Value;
use show_logs::refusal;
use show_words::said_where;
use std::alloc::Global;

/// What stands before and behind a value, so that both are a source that shows nothing and whose only
/// input it is.
const BEFORE: &str = "{\"components\":{\"App\":{\"view\":[]}},\"root\":\"App\",\"inputs\":[";

const BEHIND: &str = "]}";

/// Where a value breaks the form of an input, and what was wanted there.
fn of_value(alloc: Global, bytes: &[u8]) -> Result<Option<String>, OutOfMemory> {
    let mut source = Vec::new(alloc);
    source.extend_from_slice(BEFORE.as_bytes())?;
    source.extend_from_slice(bytes)?;
    source.extend_from_slice(BEHIND.as_bytes())?;
    refusal(alloc, source.as_slice())
}

/// Where bytes break the form of an input, and what was wanted there; None where there is no memory to
/// say it.
fn why_refused(alloc: Global, bytes: &[u8]) -> Option<String> {
    match Value::from_slice(alloc, bytes) {
        Ok(_) => said_where(of_value(alloc, bytes)),
        Err(_) => said_where(refusal(alloc, bytes)),
    }
}

/// Tells why bytes are no input. Whether that was written is no matter.
pub(crate) fn say_refused<E: Eprint>(alloc: Global, bytes: &[u8], errors: &E) {
    if let Some(line) = why_refused(alloc, bytes) {
        let _ = errors.eprintln(line);
    }
}
