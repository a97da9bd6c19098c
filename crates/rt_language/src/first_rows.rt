//! Worked rows of a first build, of props, of reads and of attributes.

ghost use Rattle.rt_language.specs.FirstRows.{StaticRow, PropRow, OtherPropRow, ConditionRow, BlockRow, CellOnceRow, AttributeRow};

/// A static element with a text.
pub fn static_tree()
    ensures { StaticRow }
{}

/// A text with a prop in it.
pub fn prop()
    ensures { PropRow }
{}

/// The same text with another prop.
pub fn other_prop()
    ensures { OtherPropRow }
{}

/// A write reruns a body only where its last run read the cell.
pub fn conditional_reads()
    ensures { ConditionRow }
{}

/// A name that is bound in a block ends with it.
pub fn names_end_with_their_block()
    ensures { BlockRow }
{}

/// A cell is made in the first run of its body alone.
pub fn cell_is_made_once()
    ensures { CellOnceRow }
{}

/// An attribute goes where its value is none, and comes again.
pub fn attribute_goes_and_comes()
    ensures { AttributeRow }
{}
