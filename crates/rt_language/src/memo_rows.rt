//! Worked rows of memos and resources.

ghost use Rattle.rt_language.specs.MemoRows.{MemoRow, ResourceRow};

/// A memo is polled where a cell that it looked at last was written, and its reader reruns where
/// its value is another one.
pub fn memo_follows_what_it_looked_at()
    ensures { MemoRow }
{}

/// A resource whose key changes while it waits loads for the new one.
pub fn resource_loads_for_its_key()
    ensures { ResourceRow }
{}
