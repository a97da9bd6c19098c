//! The lines of reports, and that of a refusal.
ghost use Rattle.std.specs.Prelude.{◌≡◌, ◌++◌, IfOk, OnOk, map};
ghost use Rattle.json.specs.Json.{array};
ghost use Rattle.json.specs.Tree.{json_tokens};
ghost use Rattle.run_reports.specs.Seen.{entry_of, report_of};
ghost use Rattle.show_answers.specs.Told.{ToldRefusal, ToldReport};
ghost use Rattle.show_objects.specs.Objects.{entry_items, entry_json, entry_with, object_form, report_json};

use crate::object::Object;
use rt_values::{List, OutOfMemory};
use run_reports::{Entry, Report};
use std::alloc::Global;

/// The line for a line that is no input.
#[tactic(auto, using(crate::proofs::Refused::refusals))]
pub fn refusal_object() -> &'static str
    ensures refusal { result.now ≡ object_form ToldRefusal }
{
    "{\"refused\":true}\n"
}

/// The line of a report, whose number is that of its input; the report of the build has number 0.
pub fn report_object(alloc: Global, number: u64, report: &Report) -> Result<List<u8>, OutOfMemory>
    ensures line { IfOk result (λ line. line
        ≡ object_form (ToldReport number (report_of report.now))) }
{
    let mut object = Object::new(alloc);
    put_report(&mut object, number, report)?;
    object.end()
}

/// Appends a report with its number.
fn put_report(object: &mut Object, number: u64, report: &Report) -> Result<(), OutOfMemory>
    ensures report { OnOk result (object.new
        ≡ object.old ++ json_tokens (report_json number (report_of report.now))) }
{
    object.begin()?;
    object.counted("report", number)?;
    object.counted("units", report.units)?;
    object.counted("bodies", report.bodies)?;
    object.counted("edits", report.edits)?;
    object.flag("default", report.default_enabled)?;
    object.key("log")?;
    put_log(object, report.log.as_slice())?;
    object.close()
}

/// Appends a list of entries.
fn put_log(object: &mut Object, log: &[Entry]) -> Result<(), OutOfMemory>
    ensures log { OnOk result (object.new
        ≡ object.old ++ json_tokens (array (entry_items (map entry_of log.now)))) }
{
    object.begin_list()?;
    for entry in log {
        put_entry(object, *entry)?;
    }
    object.close_list()
}

/// Appends an entry.
fn put_entry(object: &mut Object, entry: Entry) -> Result<(), OutOfMemory>
    ensures entry { OnOk result (object.new
        ≡ object.old ++ json_tokens (entry_json (entry_of entry))) }
{
    match entry {
        Entry::Build => {
            object.begin()?;
            object.flag("build", true)?;
            object.close()
        }
        Entry::Input(number) => put_numbered(object, "input", number),
        Entry::Heard(scope) => put_numbered(object, "heard", scope.0),
        Entry::Rerun(scope) => put_numbered(object, "rerun", scope.0),
        Entry::Poll(task) => put_numbered(object, "poll", task.0),
        Entry::Effects(scope) => put_numbered(object, "effects", scope.0),
        Entry::Made(scope) => put_numbered(object, "made", scope.0),
        Entry::Fed(scope) => put_numbered(object, "fed", scope.0),
        Entry::Kept(scope) => put_numbered(object, "kept", scope.0),
        Entry::Removed(scope) => put_numbered(object, "removed", scope.0),
    }
}

/// Appends an entry by its word and number.
fn put_numbered(object: &mut Object, word: &str, number: u64) -> Result<(), OutOfMemory>
    ensures entry { OnOk result (object.new
        ≡ object.old ++ json_tokens (entry_with word.now number)) }
{
    object.begin()?;
    object.counted(word, number)?;
    object.close()
}
