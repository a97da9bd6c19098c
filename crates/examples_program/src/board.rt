//! The board: someone tries again, and the letter comes.

use examples_board::{Board, standing};
use examples_lines::{click, lines};
use rt_app::{Bodied, Input, List, NoData, OutOfMemory, Task};
use std::alloc::Global;

/// The lines of a session: a click at the button that tries again, and a wake of the task.
pub(crate) fn printed(alloc: Global) -> Result<List<u8>, OutOfMemory> {
    let mut inputs = List::new(alloc);
    inputs.push(click(alloc, NoData, 11)?)?;
    inputs.push(Input::Wake(Task(1)))?;
    lines(alloc, Bodied { bodies: Board }, standing(alloc)?, inputs)
}
