//! What a session tells of the build, and of each input.

use crate::entry::Entry;
use rt_values::List;

/// What was done for the build, or for one input.
#[derive(Debug, Drop)]
pub struct Report {
    pub log: List<Entry>,
    /// How many units of work were taken from the scheduler.
    pub units: u64,
    /// How many bodies were run.
    pub bodies: u64,
    /// How many edits were written.
    pub edits: u64,
    /// False only where a listener of the input's event prevented its default.
    pub default_enabled: bool,
}
