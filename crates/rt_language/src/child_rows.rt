//! Worked rows of parents and children.

ghost use Rattle.rt_language.specs.ChildRows.{FedRow, KeptRow, RemovalRow, CleanUpRow, OwnCellRow, WrittenBelowRow};

/// A parent and its child read one cell: the parent's rerun feeds the child.
pub fn parent_feeds_child()
    ensures { FedRow }
{}

/// A child that is kept reruns by its own mark.
pub fn kept_child_reruns()
    ensures { KeptRow }
{}

/// A removal takes the deepest scope first.
pub fn removes_deepest_first()
    ensures { RemovalRow }
{}

/// The clean-ups of a removed scope run last made first.
pub fn cleans_up_last_made_first()
    ensures { CleanUpRow }
{}

/// A clean-up that writes a cell of its own scope changes nothing.
pub fn cleans_up_its_own_cell()
    ensures { OwnCellRow }
{}

/// A child's write reruns the parent that read the cell.
pub fn child_writes_what_its_parent_read()
    ensures { WrittenBelowRow }
{}
