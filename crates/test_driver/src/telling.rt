//! What a call answered, in lines.

use crate::driven::Driven;
use lang_views::{Content, Value};
use rt_edits::{Edit, Mutations};
use rt_values::{List, OutOfMemory, ScopeId, Task};
use run_reports::{Fault, Report};
use show_print::{edit_line, fault_line, report_line};
use std::alloc::{AllocError, Global};

pub(crate) fn put_value(alloc: Global, out: &mut String, value: &Value) -> Result<(), AllocError> {
    match value.content() {
        Content::None => out.push_str("n"),
        Content::Number(number) => out.push_str(format!(in alloc; "i{number}")?.as_str()),
        Content::Text(text) => {
            out.push_str("s")?;
            out.push_str(text.as_str())
        }
        Content::Cell(cell) => out.push_str(format!(in alloc; "c{cell}")?.as_str()),
        Content::Task(task) => out.push_str(format!(in alloc; "t{task}")?.as_str()),
    }
}

/// A fault of a run, as the program prints it; by its number alone where that prints nothing.
pub fn put_fault(alloc: Global, out: &mut String, fault: Fault) -> Result<(), AllocError> {
    match fault_line(alloc, fault) {
        Ok(Some(line)) => put_bytes(out, line.as_slice()),
        Ok(None) => out.push_str(number_line(fault)),
        Err(OutOfMemory) => out.push_str("memory\n"),
    }
}

/// The number of a fault that the program doesn't print.
fn number_line(fault: Fault) -> &'static str {
    match fault {
        Fault::SinkFault => "fault 2\n",
        _ => "fault 1\n",
    }
}

fn put_bytes(out: &mut String, bytes: &[u8]) -> Result<(), AllocError> {
    match str::from_utf8(bytes) {
        Ok(text) => out.push_str(text),
        Err(_other) => out.push_str("?\n"),
    }
}

pub(crate) fn put_edits(alloc: Global, out: &mut String, edits: &[Edit]) -> Result<(), AllocError> {
    for edit in edits {
        match edit_line(alloc, edit) {
            Ok(line) => put_bytes(out, line.as_slice())?,
            Err(OutOfMemory) => out.push_str("memory\n")?,
        }
    }
    Ok(())
}

fn put_report(alloc: Global, out: &mut String, report: &Report) -> Result<(), AllocError> {
    match report_line(alloc, 0, report) {
        Ok(line) => put_bytes(out, line.as_slice()),
        Err(OutOfMemory) => out.push_str("memory\n"),
    }
}

pub(crate) fn put_done<D: Driven>(
    alloc: Global,
    out: &mut String,
    done: Result<(), D::Refused>,
) -> Result<(), AllocError> {
    match done {
        Ok(()) => out.push_str("ok\n"),
        Err(refused) => D::put_refused(alloc, out, refused),
    }
}

pub(crate) fn put_flag<D: Driven>(
    alloc: Global,
    out: &mut String,
    done: Result<bool, D::Refused>,
) -> Result<(), AllocError> {
    match done {
        Ok(true) => out.push_str("true\n"),
        Ok(false) => out.push_str("false\n"),
        Err(refused) => D::put_refused(alloc, out, refused),
    }
}

pub(crate) fn put_poll<D: Driven>(
    alloc: Global,
    out: &mut String,
    done: Result<bool, D::Refused>,
) -> Result<(), AllocError> {
    match done {
        Ok(true) => out.push_str("Ready\n"),
        Ok(false) => out.push_str("Pending\n"),
        Err(refused) => D::put_refused(alloc, out, refused),
    }
}

pub(crate) fn put_reported<D: Driven>(
    alloc: Global,
    out: &mut String,
    edits: &[Edit],
    done: Result<Report, D::Refused>,
) -> Result<(), AllocError> {
    put_edits(alloc, out, edits)?;
    match done {
        Ok(report) => put_report(alloc, out, &report),
        Err(refused) => D::put_refused(alloc, out, refused),
    }
}

pub(crate) fn put_vec<D: Driven>(
    alloc: Global,
    out: &mut String,
    done: Result<Mutations, D::Refused>,
) -> Result<(), AllocError> {
    match done {
        Ok(sink) => {
            put_edits(alloc, out, sink.edits())?;
            out.push_str("vec\n")
        }
        Err(refused) => D::put_refused(alloc, out, refused),
    }
}

pub(crate) fn put_task<D: Driven>(
    alloc: Global,
    out: &mut String,
    done: Result<Option<Task>, D::Refused>,
) -> Result<(), AllocError> {
    match done {
        Ok(Some(task)) => out.push_str(format!(in alloc; "task {}\n", task.0)?.as_str()),
        Ok(None) => out.push_str("none\n"),
        Err(refused) => D::put_refused(alloc, out, refused),
    }
}

pub(crate) fn put_resolved<D: Driven>(
    alloc: Global,
    out: &mut String,
    edits: &[Edit],
    done: Result<List<ScopeId>, D::Refused>,
) -> Result<(), AllocError> {
    put_edits(alloc, out, edits)?;
    match done {
        Ok(resolved) => {
            out.push_str("resolved")?;
            for scope in resolved.as_slice() {
                out.push_str(format!(in alloc; " {}", scope.0)?.as_str())?;
            }
            out.push_str("\n")
        }
        Err(refused) => D::put_refused(alloc, out, refused),
    }
}
