//! Worked rows of attributes with namespaces that an application gives.

ghost use Rattle.lang_rows.specs.NamespaceRows.{NamesRow, FitRow};

/// A name in another namespace is another attribute.
pub fn names_in_namespaces()
    ensures { NamesRow }
{}

/// A name stands once in each namespace, and a listener has none.
pub fn names_fit()
    ensures { FitRow }
{}
