//! Sessions over sinks that fail.

use crate::telling::{put_edits, put_fault};
use crate::words::{number, small, words_of};
use lang_script::{Script, inputs_of};
use lang_sources::read_source;
use rt_edits::FailingMutations;
use rt_session::session;
use rt_values::{List, OutOfMemory};
use run_reports::{Fault, Limits, Report, SessionFault};
use std::alloc::Global;

/// The limits in the first line, and after them the numbers of edits at which sinks fail; the source
/// in the second, whose inputs each session takes.
pub(crate) fn put_sessions(alloc: Global, out: &mut String, text: &str) -> Result<(), OutOfMemory> {
    let mut lines = text.split("\n");
    let words = words_of(alloc, lines.next().unwrap_or(""))?;
    let source = lines.next().unwrap_or("");
    for at in 2..words.len() {
        put_session(alloc, out, source, words.as_slice(), at)?;
    }
    Ok(())
}

/// How a session ended: its fault, and how many reports were finished.
#[derive(Clone, Copy)]
struct Ended {
    fault: Option<Fault>,
    reports: usize,
}

/// One of them: the edits that its sink took, its fault, and how many reports were finished.
fn put_session(
    alloc: Global,
    out: &mut String,
    source: &str,
    words: &[&str],
    at: usize,
) -> Result<(), OutOfMemory> {
    let limits = Limits {
        units: number(words, 0),
        height: small(words, 1),
        drain: 1024,
    };
    let mut sink = FailingMutations::new(alloc, List::from_slice(alloc, &[number(words, at)])?);
    let Some(ended) = run(alloc, source, limits, &mut sink)? else {
        out.push_str("form\n")?;
        return Ok(());
    };
    put_edits(alloc, out, sink.edits())?;
    if let Some(fault) = ended.fault {
        put_fault(alloc, out, fault)?;
    }
    out.push_str(format!(in alloc; "reports {}\n", ended.reports as u64)?.as_str())?;
    Ok(())
}

/// A session over a sink. None where the source isn't in the form.
fn run(
    alloc: Global,
    source: &str,
    limits: Limits,
    sink: &mut FailingMutations,
) -> Result<Option<Ended>, OutOfMemory> {
    let Some(described) = read_source(alloc, source.as_bytes())? else {
        return Ok(None);
    };
    let inputs = inputs_of(alloc, described.inputs.as_slice())?;
    let script = Script::new(alloc, described)?;
    let props = script.props(alloc)?;
    Ok(Some(end_of(session(alloc, script, props, inputs, sink, limits))))
}

fn end_of(done: Result<List<Report>, SessionFault>) -> Ended {
    match done {
        Ok(reports) => Ended {
            fault: None,
            reports: reports.len(),
        },
        Err(stopped) => Ended {
            fault: Some(stopped.fault),
            reports: stopped.reports.len(),
        },
    }
}
