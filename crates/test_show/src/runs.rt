//! A session of each example.

use examples_board::{Board, standing};
use examples_lines::{click, lines};
use examples_router::Router;
use examples_template::{Application, tallying};
use rt_app::{App, Bodied, Input, List, NoData, OutOfMemory, Paged, Part, Task};
use std::alloc::Global;

/// Clicks at elements, one after another.
fn clicks<A: App>(
    alloc: Global,
    payload: A::Payload,
    elements: &[u64],
) -> Result<List<Input<A>>, OutOfMemory> {
    let mut inputs = List::new(alloc);
    for element in elements {
        inputs.push(click(alloc, payload.copy(alloc)?, *element)?)?;
    }
    Ok(inputs)
}

/// The application to start from, raised twice.
pub(crate) fn template(alloc: Global) -> Result<List<u8>, OutOfMemory> {
    let inputs = clicks(alloc, NoData, &[1, 1])?;
    lines(alloc, Paged { pages: Application }, NoData, inputs)
}

/// The router, with clicks at two links, at the page's heading and at the first link.
pub(crate) fn router(alloc: Global) -> Result<List<u8>, OutOfMemory> {
    let inputs = clicks(alloc, NoData, &[3, 5, 7, 1])?;
    lines(alloc, Bodied { bodies: Router }, 0, inputs)
}

/// The tally, raised three times.
pub(crate) fn tally(alloc: Global) -> Result<List<u8>, OutOfMemory> {
    let inputs = clicks(alloc, NoData, &[1, 1, 1])?;
    lines(alloc, tallying(), NoData, inputs)
}

/// The board: a click at the button that tries again, and a wake of the task.
pub(crate) fn board(alloc: Global) -> Result<List<u8>, OutOfMemory> {
    let mut inputs = clicks(alloc, NoData, &[11])?;
    inputs.push(Input::Wake(Task(1)))?;
    lines(alloc, Bodied { bodies: Board }, standing(alloc)?, inputs)
}
