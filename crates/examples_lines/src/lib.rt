//! What the example programs share: a click, the lines that a session prints, and that they are
//! printed.
#![tactic(auto)]

use rt_app::{
    App, ElementId, Input, Limits, List, Mutations, OutOfMemory, Report, SessionFault, Text,
    session,
};
use show_print::{edit_line, fault_line, report_line};
use std::alloc::Global;

/// A click at an element.
pub fn click<A: App>(
    alloc: Global,
    payload: A::Payload,
    element: u64,
) -> Result<Input<A>, OutOfMemory> {
    Ok(Input::Event {
        name: Text::from_str(alloc, "click")?,
        payload,
        element: ElementId(element),
        bubbles: true,
    })
}

/// The lines of a session: its edits, its reports, and its fault where there is one.
pub fn lines<A: App>(
    alloc: Global,
    app: A,
    props: A::Props,
    inputs: List<Input<A>>,
) -> Result<List<u8>, OutOfMemory> {
    let mut sink = Mutations::default_list(alloc);
    let ended = session(alloc, app, props, inputs, &mut sink, Limits::usual());
    lines_of(alloc, &sink, ended)
}

/// The lines of a session that has ended: the edits that its sink kept, its reports, and its fault
/// where there is one.
pub fn lines_of(
    alloc: Global,
    sink: &Mutations,
    ended: Result<List<Report>, SessionFault>,
) -> Result<List<u8>, OutOfMemory> {
    let mut lines = List::new(alloc);
    for edit in sink.edits() {
        lines.append(edit_line(alloc, edit)?)?;
    }
    let (reports, fault) = match ended {
        Ok(reports) => (reports, None),
        Err(SessionFault { fault, reports }) => (reports, fault_line(alloc, fault)?),
    };
    let told = reports.as_slice();
    for number in 0..told.len() {
        lines.append(report_line(alloc, number as u64, &told[number])?)?;
    }
    if let Some(line) = fault {
        lines.append(line)?;
    }
    Ok(lines)
}

/// Prints the lines, or that there was no memory for them.
pub fn print_lines<R: Print>(rt: &R, printed: Result<List<u8>, OutOfMemory>) {
    match printed {
        Ok(lines) => {
            for byte in lines.as_slice() {
                let byte = *byte as char;
                let _ = print!(rt; "{byte}");
            }
        }
        Err(_) => {
            let _ = println!(rt; "out of memory");
        }
    }
}
