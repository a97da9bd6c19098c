//! Putting the answer to a line, each line of it by one call of the out.
ghost use Rattle.std.specs.Prelude.{◌≤◌, ◌++◌, ◌∷◌, []};
ghost use Rattle.run_reports.specs.Seen.{fault_of, report_of};
ghost use Rattle.show_answers.specs.Streamed.{refusal};
ghost use Rattle.show_objects.specs.Lines.{report_line_in};
ghost use Rattle.show_streams.specs.Writes.{Writes};
ghost use Rattle.show_stream.specs.Put.{PutsFault, PutsLast};

use rt_values::List;
use run_reports::{Fault, Report};
use show_objects::Tells;
use show_streams::{Out, OutError};
use show_words::{Stop, fault_said, put_ended_printed, said};
use std::alloc::Global;

/// Puts the answer to a line that is no input.
pub(crate) fn put_refusal<T: Tells, O: Out>(out: &mut O) -> Result<(), OutError>
    ensures writes { Writes (refusal T.form ∷ [])
        (O.puts out.old) (O.puts out.new) (O.faults out.old) (O.faults out.new) result }
{
    out.put(T::refusal().as_bytes())
}

/// Puts lines, and then one line more.
fn put_before<O: Out>(
    alloc: Global,
    lines: &[List<u8>],
    last: &[u8],
    out: &mut O,
) -> Result<(), OutError>
    ensures writes { Writes (lines.now ++ last.now ∷ [])
        (O.puts out.old) (O.puts out.new) (O.faults out.old) (O.faults out.new) result }
{
    put_ended_printed(alloc, lines, &[], last, out)
}

/// Puts the lines of edits, and then that of their report, which has this number.
pub(crate) fn put_answer<T: Tells, O: Out>(
    alloc: Global,
    lines: &[List<u8>],
    number: u64,
    report: &Report,
    out: &mut O,
) -> Result<(), OutError>
    ensures writes { Writes (lines.now ++ report_line_in T.form number report.now ∷ [])
        (O.puts out.old) (O.puts out.new) (O.faults out.old) (O.faults out.new) result }
{
    let last = T::report_line(alloc, number, report)?;
    put_before(alloc, lines, last.as_slice(), out)
}

/// Puts the lines of edits, and then that of a fault. A fault without a line is as one that there is
/// no memory for.
fn put_last<T: Tells, O: Out>(
    alloc: Global,
    lines: &[List<u8>],
    fault: Fault,
    out: &mut O,
) -> Result<(), OutError>
    ensures puts { PutsLast T.form lines.now (fault_of fault)
        (O.puts out.old) (O.puts out.new) (O.faults out.old) (O.faults out.new) result }
    ensures later { O.faults out.old ≤ O.faults out.new }
{
    let Some(last) = T::fault_line(alloc, fault)? else {
        return Err(OutError::OutOfMemory);
    };
    put_before(alloc, lines, last.as_slice(), out)
}

/// Puts the lines of edits, and then that of the fault at which the session ended; `line` says more of
/// it. Why the program stops.
pub(crate) fn put_fault<T: Tells, O: Out>(
    alloc: Global,
    lines: &[List<u8>],
    fault: Fault,
    out: &mut O,
    line: &mut Option<String>,
) -> Stop
    ensures puts { PutsFault T.form lines.now (fault_of fault)
        (O.puts out.old) (O.puts out.new) (O.faults out.old) (O.faults out.new) result }
    ensures later { O.faults out.old ≤ O.faults out.new }
{
    *line = said(fault_said(alloc, fault));
    match put_last::<T, O>(alloc, lines, fault, out) {
        Ok(()) => Stop::Fault,
        Err(error) => Stop::from(error),
    }
}
