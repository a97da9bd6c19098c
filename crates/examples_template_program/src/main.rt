//! The program of an application to start from: one click is taken in, and the edits and reports are
//! printed.
#![tactic(auto)]

use examples_lines::{click, lines, print_lines};
use examples_template::Application;
use rt_app::{List, NoData, OutOfMemory, Paged};
use std::alloc::Global;

/// The lines of a session with one click at the button.
fn printed(alloc: Global) -> Result<List<u8>, OutOfMemory> {
    let mut inputs = List::new(alloc);
    inputs.push(click(alloc, NoData, 1)?)?;
    lines(alloc, Paged { pages: Application }, NoData, inputs)
}

fn main(rt: HostRuntime) {
    print_lines(&rt, printed(rt.alloc()));
}
