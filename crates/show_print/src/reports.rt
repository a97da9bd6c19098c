//! The lines of reports.
ghost use Rattle.std.specs.Prelude.{◌≡◌, ◌++◌, IfOk, OnOk, decimal, map};
ghost use Rattle.rt_language.specs.Lines.{spaced, entry_text, counts_text};
ghost use Rattle.rt_language.specs.Lines as language;
ghost use Rattle.run_reports.specs.Seen.{entry_of, report_of};

use crate::line::Line;
use rt_values::{List, OutOfMemory};
use run_reports::{Entry, Report};
use std::alloc::Global;

/// The line of a report, whose number is that of its input; the report of the build has number 0.
pub fn report_line(alloc: Global, number: u64, report: &Report) -> Result<List<u8>, OutOfMemory>
    ensures line { IfOk result (λ line. line ≡ language.report_line number (report_of report.now)) }
{
    let mut line = Line::with_room(alloc)?;
    put_counts(&mut line, number, report)?;
    line.word(" log")?;
    put_log(&mut line, report.log.as_slice())?;
    line.end()
}

/// Appends what a report counts, with its number before it.
fn put_counts(line: &mut Line, number: u64, report: &Report) -> Result<(), OutOfMemory>
    ensures counts { OnOk result (line.new ≡ line.old ++ counts_text number (report_of report.now)) }
{
    line.word("report ")?;
    line.decimal(number)?;
    line.word(" units ")?;
    line.decimal(report.units)?;
    line.word(" bodies ")?;
    line.decimal(report.bodies)?;
    line.word(" edits ")?;
    line.decimal(report.edits)
}

/// Appends the word of each entry with a space before it.
fn put_log(line: &mut Line, log: &[Entry]) -> Result<(), OutOfMemory>
    ensures log { OnOk result (line.new
        ≡ line.old ++ spaced (map entry_text (map entry_of log.now))) }
{
    for entry in log {
        line.byte(b' ')?;
        put_entry(line, *entry)?;
    }
    Ok(())
}

/// Appends the word of an entry.
fn put_entry(line: &mut Line, entry: Entry) -> Result<(), OutOfMemory>
    ensures entry { OnOk result (line.new ≡ line.old ++ entry_text (entry_of entry)) }
{
    match entry {
        Entry::Build => line.word("build"),
        Entry::Input(number) => put_word(line, "input:", number),
        Entry::Heard(scope) => put_word(line, "heard:", scope.0),
        Entry::Rerun(scope) => put_word(line, "rerun:", scope.0),
        Entry::Poll(task) => put_word(line, "poll:", task.0),
        Entry::Effects(scope) => put_word(line, "effects:", scope.0),
        Entry::Made(scope) => put_word(line, "made:", scope.0),
        Entry::Fed(scope) => put_word(line, "fed:", scope.0),
        Entry::Kept(scope) => put_word(line, "kept:", scope.0),
        Entry::Removed(scope) => put_word(line, "removed:", scope.0),
    }
}

/// Appends a word and a number.
pub(crate) fn put_word(line: &mut Line, word: &str, number: u64) -> Result<(), OutOfMemory>
    ensures word { OnOk result (line.new ≡ line.old ++ (word.now ++ decimal number)) }
{
    line.word(word)?;
    line.decimal(number)
}
