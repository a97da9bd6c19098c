//! Worked rows of edits that a document refuses, and of attributes with namespaces.

ghost use Rattle.lang_rows.specs.DocumentRows.{UnknownRow, KindRow, RepeatedRow, OrderRow, GoneRow};

/// Edits that name no node.
pub fn no_such_node()
    ensures { UnknownRow }
{}

/// Edits that name a node of another kind.
pub fn nodes_of_another_kind()
    ensures { KindRow }
{}

/// Edits that bring a number which may not come in.
pub fn repeated_numbers()
    ensures { RepeatedRow }
{}

/// Attributes ascend by namespace, none first, and then by name.
pub fn attributes_are_in_order()
    ensures { OrderRow }
{}

/// An attribute goes by its name and namespace; one that isn't there changes nothing.
pub fn attributes_go()
    ensures { GoneRow }
{}
