//! The two forms in which an application that is given line by line is told.
ghost use Rattle.std.specs.Prelude.{◌≡◌, [], Some, IfOk, option_map};
ghost use Rattle.run_reports.specs.Seen.{fault_of};
ghost use Rattle.show_answers.specs.Told.{ToldFault, ToldRefusal, text_form};
ghost use Rattle.show_objects.specs.Lines.{AreLinesIn, report_line_in};
ghost use Rattle.show_objects.specs.Objects.{object_form};

use crate::faults::fault_object;
use crate::object_lines::ObjectLines;
use crate::reports::{refusal_object, report_object};
use rt_edits::WriteMutations;
use rt_values::{List, OutOfMemory};
use run_reports::{Fault, Report};
use show_print::{EditLines, fault_line, report_line};
use std::alloc::Global;

/// A sink of edits that keeps the line of each, and the lines of what else is told.
pub trait Tells: WriteMutations {
    ghost use Rattle.show_answers.specs.Told.{Form};

    /// How each thing that is told is written.
    ghost form: { Form };

    /// A sink that has taken nothing.
    fn fresh(alloc: Global) -> Self
        ensures taken { Self.taken result ≡ Some [] };

    /// The lines of the edits that it took, in order.
    fn kept(&self) -> &[List<u8>]
        ensures lines { AreLinesIn form (Self.taken self.now) result.now };

    /// The line of a report, whose number is that of its input.
    fn report_line(alloc: Global, number: u64, report: &Report) -> Result<List<u8>, OutOfMemory>
        ensures line { IfOk result (λ line. line ≡ report_line_in form number report.now) };

    /// The line of a fault. Want of memory and a failed sink have none.
    fn fault_line(alloc: Global, fault: Fault) -> Result<Option<List<u8>>, OutOfMemory>
        ensures line { IfOk result (λ line. line
            ≡ option_map (λ fault. form (ToldFault fault)) (fault_of fault)) };

    /// The line for a line that is no input.
    fn refusal() -> &'static str
        ensures refusal { result.now ≡ form ToldRefusal };
}

/// Lines of text.
impl Tells for EditLines {
    ghost form = { text_form };

    fn fresh(alloc: Global) -> EditLines {
        EditLines::new(alloc)
    }

    fn kept(&self) -> &[List<u8>] {
        self.lines()
    }

    fn report_line(alloc: Global, number: u64, report: &Report) -> Result<List<u8>, OutOfMemory> {
        report_line(alloc, number, report)
    }

    fn fault_line(alloc: Global, fault: Fault) -> Result<Option<List<u8>>, OutOfMemory> {
        fault_line(alloc, fault)
    }

    fn refusal() -> &'static str {
        "refused\n"
    }
}

/// Objects of JSON.
impl Tells for ObjectLines {
    ghost form = { object_form };

    fn fresh(alloc: Global) -> ObjectLines {
        ObjectLines::new(alloc)
    }

    fn kept(&self) -> &[List<u8>] {
        self.lines()
    }

    fn report_line(alloc: Global, number: u64, report: &Report) -> Result<List<u8>, OutOfMemory> {
        report_object(alloc, number, report)
    }

    fn fault_line(alloc: Global, fault: Fault) -> Result<Option<List<u8>>, OutOfMemory> {
        fault_object(alloc, fault)
    }

    fn refusal() -> &'static str {
        refusal_object()
    }
}
