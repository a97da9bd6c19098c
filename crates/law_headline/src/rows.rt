//! What edits make of one row of nodes, wherever in a document it stands.

ghost use Rattle.law_headline.specs.Rules.{NothingBrings, TextBrings, ElementBrings, RemovedBrings, ReplacedBrings, InsertedBrings, BothBring, JoinedBring, ChildrenBring, DocumentBrought};

/// No edit leaves a row as it is.
pub fn nothing_brings()
    ensures { NothingBrings }
{}

/// A text that is set makes one text node of another.
pub fn text_brings()
    ensures { TextBrings }
{}

/// Edits of an element's attributes and listeners leave its number and its children.
pub fn element_brings()
    ensures { ElementBrings }
{}

/// The removals of a row take it away.
pub fn removed_brings()
    ensures { RemovedBrings }
{}

/// A row that isn't empty gives way to another one.
pub fn replaced_brings()
    ensures { ReplacedBrings }
{}

/// Nodes come in after the last one of a row.
pub fn inserted_brings()
    ensures { InsertedBrings }
{}

/// One change of a row and then another one.
pub fn both_bring()
    ensures { BothBring }
{}

/// Changes of two rows that stand beside each other.
pub fn joined_bring()
    ensures { JoinedBring }
{}

/// A change of a node's children.
pub fn children_bring()
    ensures { ChildrenBring }
{}

/// What makes one row of another makes the document with the one of that with the other.
pub fn document_brought()
    ensures { DocumentBrought }
{}
