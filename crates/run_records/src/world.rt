//! What a call of an application can look at.

use crate::rows::Rows;
use rt_cells::Cells;
use rt_values::Task;
use tree_nodes::Parts;

/// The next number of each counter.
#[derive(Clone, Copy, Debug, PartialEq, Eq)]
pub struct Firsts {
    pub tasks: u64,
    pub cells: u64,
    pub contexts: u64,
    pub elements: u64,
    pub errors: u64,
}

/// What a call can look at.
#[derive(Drop)]
pub struct World<'a, P: Parts> {
    pub rows: &'a Rows<P>,
    pub cells: &'a Cells<P::Value>,
    /// The numbers that the call draws first.
    pub next: Firsts,
    /// The task that is being polled.
    pub task: Option<Task>,
    /// Whether a patch is running.
    pub rendering: bool,
}
