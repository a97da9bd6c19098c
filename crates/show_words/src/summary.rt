//! The line that sums up a run of the generated application.
ghost use Rattle.std.specs.Prelude.{◌≡◌, ◌+◌, ◌++◌, map, IfOk, IfSome, OnOk, string_bytes, decimal};
ghost use Rattle.rt_language.specs.Generated.{total, summary_line};
ghost use Rattle.run_reports.specs.Seen.{report_of};

use rt_values::{OutOfMemory, Text};
use run_reports::Report;
use std::alloc::{AllocError, Global};

/// What reports count, together.
#[derive(Clone, Copy)]
struct Totals {
    units: u64,
    bodies: u64,
    edits: u64,
}

/// The sums with one more report; None where one of them is past the greatest `u64`.
fn with_report(totals: Totals, report: &Report) -> Option<Totals>
    ensures units { IfSome result (λ sums. sums.units ≡ totals.units + report.now.units) }
    ensures bodies { IfSome result (λ sums. sums.bodies ≡ totals.bodies + report.now.bodies) }
    ensures edits { IfSome result (λ sums. sums.edits ≡ totals.edits + report.now.edits) }
{
    Some(Totals {
        units: totals.units.checked_add(report.units)?,
        bodies: totals.bodies.checked_add(report.bodies)?,
        edits: totals.edits.checked_add(report.edits)?,
    })
}

/// The sums over reports; None where one of them is past the greatest `u64`.
fn totals_of(reports: &[Report]) -> Option<Totals>
    ensures units { IfSome result (λ sums. sums.units ≡ total (λ report. report.units) (map report_of reports.now)) }
    ensures bodies { IfSome result (λ sums. sums.bodies ≡ total (λ report. report.bodies) (map report_of reports.now)) }
    ensures edits { IfSome result (λ sums. sums.edits ≡ total (λ report. report.edits) (map report_of reports.now)) }
{
    let mut totals = Totals {
        units: 0,
        bodies: 0,
        edits: 0,
    };
    for report in reports {
        totals = with_report(totals, report)?;
    }
    Some(totals)
}

/// Appends a word and a number.
fn put_count(line: &mut String, word: &str, count: u64) -> Result<(), AllocError>
    ensures count { OnOk result (string_bytes line.new
        ≡ string_bytes line.old ++ (word.now ++ decimal count)) }
{
    line.push_str(word)?;
    line.write(count)
}

/// The line of a run of so many rows, with the newline that ends it. Sums past the greatest `u64`
/// are told as want of memory.
pub fn summary_line(alloc: Global, rows: u64, reports: &[Report]) -> Result<Text, OutOfMemory>
    ensures line { IfOk result (λ line. line ≡ summary_line rows (map report_of reports.now)) }
{
    let Some(totals) = totals_of(reports) else {
        return Err(OutOfMemory);
    };
    let mut line = String::new(alloc);
    put_count(&mut line, "make ", rows)?;
    put_count(&mut line, " reports ", reports.len() as u64)?;
    put_count(&mut line, " units ", totals.units)?;
    put_count(&mut line, " bodies ", totals.bodies)?;
    put_count(&mut line, " edits ", totals.edits)?;
    line.push_str("\n")?;
    Ok(Text::from_string(line))
}
