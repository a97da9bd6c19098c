//! A recorded run from its bytes: a source with one key more.
ghost use Rattle.std.specs.Prelude.{◌≡◌, ◌≤◌, length, IfOk};
ghost use Rattle.serde_json.specs.View.{view};
ghost use Rattle.show_logs.specs.Recorded.{without_log};
ghost use Rattle.show_logs.specs.Reading.{ReadsLog};
ghost use Rattle.show_logs.specs.Runs.{Gathers, ReadsRun, ReadsBytes};

use crate::words::lists;
use lang_expressions::list_at;
use lang_sources::{SOURCE_LIMIT, source_in};
use lang_syntax::Source;
use rt_values::{List, OutOfMemory};
use run_reports::Entry;
use serde_json::Value;
use serde_json::error::Category;
use std::alloc::Global;

/// A recorded run.
#[derive(Drop)]
pub struct Run {
    /// The application, its props and its inputs.
    pub source: Source,
    /// The entries of the build, and those of each input.
    pub log: List<List<Entry>>,
}

/// The lists at the key of a log.
fn log_in(alloc: Global, value: &Value) -> Result<Option<List<List<Entry>>>, OutOfMemory>
    ensures log { IfOk result (ReadsLog (view value.now)) }
{
    match list_at(value, "log") {
        Some(values) => lists(alloc, values),
        None => Ok(None),
    }
}

/// The value without its log.
pub(crate) fn without_log(value: Value) -> Value
    ensures rest { view result ≡ without_log (view value) }
{
    match value {
        Value::Object(members) => {
            let mut members = members;
            let _ = members.remove("log");
            Value::Object(members)
        }
        other => other,
    }
}

/// A recorded run, where there is a list for the build and one for each input.
fn gathered(source: Source, log: List<List<Entry>>) -> Option<Run>
    ensures one_each { Gathers source log result }
{
    let inputs = source.inputs.len();
    let lists = log.len();
    if lists <= inputs {
        return None;
    }
    let more = lists - inputs;
    if more == 1 {
        Some(Run { source, log })
    } else {
        None
    }
}

/// The recorded run that a value is.
fn run_in(alloc: Global, value: Value) -> Result<Option<Run>, OutOfMemory>
    ensures run { IfOk result (ReadsRun (view value)) }
{
    let Some(log) = log_in(alloc, &value)? else {
        return Ok(None);
    };
    let rest = without_log(value);
    let Some(source) = source_in(alloc, &rest)? else {
        return Ok(None);
    };
    Ok(gathered(source, log))
}

fn text(alloc: Global, bytes: &[u8]) -> Result<Option<Run>, OutOfMemory>
    ensures run { length bytes.now ≤ SOURCE_LIMIT → IfOk result (ReadsBytes bytes.now) }
{
    match Value::from_slice(alloc, bytes) {
        Ok(value) => run_in(alloc, value),
        Err(error) if error.classify() == Category::Memory => Err(OutOfMemory),
        Err(_) => Ok(None),
    }
}

/// The recorded run that the bytes are, or `None` where they aren't in the form of one.
pub fn read_run(alloc: Global, bytes: &[u8]) -> Result<Option<Run>, OutOfMemory>
    // What is answered is what the bytes describe, and where none is they describe none.
    ensures described { IfOk result (ReadsBytes bytes.now) }
{
    if bytes.len() > SOURCE_LIMIT {
        return Ok(None);
    }
    text(alloc, bytes)
}
