//! Putting what the program prints, each line by one call of the out.
ghost use Rattle.std.specs.Prelude.{◌++◌, ◌∷◌, []};
ghost use Rattle.show_words.specs.Texts.{line_of, lines_of, report_line_of, report_lines_from, run_lines_of};
ghost use Rattle.show_streams.specs.Writes.{Writes};

use rt_edits::Edit;
use rt_values::List;
use run_reports::Report;
use show_print::{edit_line, report_line};
use show_streams::{Out, OutError};
use std::alloc::Global;

/// Puts the line of an edit.
fn put_edit<O: Out>(alloc: Global, edit: &Edit, out: &mut O) -> Result<(), OutError>
    ensures writes { Writes (line_of edit.now ∷ [])
        (O.puts out.old) (O.puts out.new) (O.faults out.old) (O.faults out.new) result }
{
    let line = edit_line(alloc, edit)?;
    out.put(line.as_slice())
}

/// Puts the lines of edits.
fn put_edits<O: Out>(alloc: Global, edits: &[Edit], out: &mut O) -> Result<(), OutError>
    ensures writes { Writes (lines_of edits.now)
        (O.puts out.old) (O.puts out.new) (O.faults out.old) (O.faults out.new) result }
{
    for edit in edits {
        put_edit(alloc, edit, out)?;
    }
    Ok(())
}

/// Puts the line of a report, which has this number.
fn put_report<O: Out>(
    alloc: Global,
    number: u64,
    report: &Report,
    out: &mut O,
) -> Result<(), OutError>
    ensures writes { Writes (report_line_of number report.now ∷ [])
        (O.puts out.old) (O.puts out.new) (O.faults out.old) (O.faults out.new) result }
{
    let line = report_line(alloc, number, report)?;
    out.put(line.as_slice())
}

/// Puts the lines of reports, numbered from 0.
fn put_reports<O: Out>(alloc: Global, reports: &[Report], out: &mut O) -> Result<(), OutError>
    ensures writes { Writes (report_lines_from 0 reports.now)
        (O.puts out.old) (O.puts out.new) (O.faults out.old) (O.faults out.new) result }
{
    for (number, report) in reports.iter().enumerate() {
        put_report(alloc, number as u64, report, out)?;
    }
    Ok(())
}

/// Puts the lines of edits, and then those of reports.
#[tactic(auto, using(crate::proofs::Puts::writes_first))]
pub fn put_run<O: Out>(
    alloc: Global,
    edits: &[Edit],
    reports: &[Report],
    out: &mut O,
) -> Result<(), OutError>
    ensures writes { Writes (run_lines_of edits.now reports.now)
        (O.puts out.old) (O.puts out.new) (O.faults out.old) (O.faults out.new) result }
{
    put_edits(alloc, edits, out)?;
    put_reports(alloc, reports, out)
}

/// Puts lines as they are.
fn put_lines<O: Out>(lines: &[List<u8>], out: &mut O) -> Result<(), OutError>
    ensures writes { Writes lines.now
        (O.puts out.old) (O.puts out.new) (O.faults out.old) (O.faults out.new) result }
{
    for line in lines {
        out.put(line.as_slice())?;
    }
    Ok(())
}

/// Puts the lines that edits have, and then those of reports.
#[tactic(auto, using(crate::proofs::Puts::writes_first))]
pub fn put_printed<O: Out>(
    alloc: Global,
    lines: &[List<u8>],
    reports: &[Report],
    out: &mut O,
) -> Result<(), OutError>
    ensures writes { Writes (lines.now ++ report_lines_from 0 reports.now)
        (O.puts out.old) (O.puts out.new) (O.faults out.old) (O.faults out.new) result }
{
    put_lines(lines, out)?;
    put_reports(alloc, reports, out)
}

/// Puts the lines that edits have, those of reports, and one line more.
pub fn put_ended_printed<O: Out>(
    alloc: Global,
    lines: &[List<u8>],
    reports: &[Report],
    line: &[u8],
    out: &mut O,
) -> Result<(), OutError>
    ensures writes { Writes ((lines.now ++ report_lines_from 0 reports.now) ++ line.now ∷ [])
        (O.puts out.old) (O.puts out.new) (O.faults out.old) (O.faults out.new) result }
{
    put_printed(alloc, lines, reports, out)?;
    out.put(line)
}
