//! Why bytes are no recorded run.

use crate::reading::without_log;
use crate::sources::refusal;
use rt_values::OutOfMemory;
use serde_json::Value;
use serde_json::error::Category;
use std::alloc::Global;

/// What is said of a log in another form.
const LOG: &str =
    "log: wanted a list for the build and one for each input, each of words like \"made:1\"";

/// Where a value is no recorded run: what was wanted at its log, or where its application isn't one.
fn of_value(alloc: Global, value: Value) -> Result<Option<String>, OutOfMemory> {
    let rest = without_log(value).to_string(alloc)?;
    match refusal(alloc, rest.as_bytes())? {
        Some(line) => Ok(Some(line)),
        None => Ok(Some(String::from_str(alloc, LOG)?)),
    }
}

/// Where bytes break the form of a recorded run, and what was wanted there.
pub fn refusal_of_run(alloc: Global, bytes: &[u8]) -> Result<Option<String>, OutOfMemory> {
    match Value::from_slice(alloc, bytes) {
        Ok(value) => of_value(alloc, value),
        Err(error) if error.classify() == Category::Memory => Err(OutOfMemory),
        Err(_) => refusal(alloc, bytes),
    }
}
